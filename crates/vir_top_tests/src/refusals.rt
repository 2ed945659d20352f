// Each cause of each status but 0 and 1, for each command whose other tests have none: words, the status and the line.
// Nothing is printed.
use crate::calls::{
    COUNT, DIVIDED, ELECT, EMPTY, PLURALITY, SHORT, UNREAD, USAGE, expect_call, owned,
};
use std::alloc::{AllocError, Global};
use vir_counter::FixedCounter;
use vir_machine::Bench;
use vir_outside::{MemoryShelf, MemorySink};
use vir_top::virage;

// The files beside the rule: a profile and a manifest that are accepted, and a file of each kind that is refused.
const FILES: &[(&str, &[u8])] = &[
    ("votes.soc", DIVIDED),
    ("names.txt", b"votes.soc\n"),
    ("empty.vir", b""),
    ("short.soc", SHORT),
    ("bytes.txt", b"a\n\xFF\n"),
];

const SHORT_LINE: &[u8] = b"profile refused: Short at line 2\n";

const BAD_BYTE: &[u8] = b"text refused: BadByte at byte 2\n";

type Row = (&'static [&'static str], u8, &'static [u8]);

const RULES: &[Row] = &[
    (&["listing"], 2, USAGE),
    (&["listing", "empty.vir"], 3, EMPTY),
    (&["listing", "other.vir"], 5, UNREAD),
    (&["simplify"], 2, USAGE),
    (&["simplify", "empty.vir"], 3, EMPTY),
    (&["simplify", "other.vir"], 5, UNREAD),
];

const PROFILES: &[Row] = &[
    (&["pairs"], 2, USAGE),
    (&["pairs", "short.soc"], 4, SHORT_LINE),
    (&["pairs", "other.soc"], 5, UNREAD),
];

const RULES_AND_PROFILES: &[Row] = &[
    (&["explain", "rule.vir"], 2, USAGE),
    (&["explain", "empty.vir", "votes.soc"], 3, EMPTY),
    (&["explain", "rule.vir", "short.soc"], 4, SHORT_LINE),
    (&["explain", "other.vir", "votes.soc"], 5, UNREAD),
    (&["explain", "rule.vir", "other.soc"], 5, UNREAD),
    (&["refute", "rule.vir", "cc"], 2, USAGE),
    (&["refute", "empty.vir", "cc", "votes.soc"], 3, EMPTY),
    (&["refute", "rule.vir", "cc", "short.soc"], 4, SHORT_LINE),
    (&["refute", "other.vir", "cc", "votes.soc"], 5, UNREAD),
    (&["refute", "rule.vir", "cc", "other.soc"], 5, UNREAD),
];

const PAIRS: &[Row] = &[
    (
        &["refute", "rule.vir", "mono", "votes.soc", "votes.soc"],
        2,
        USAGE,
    ),
    (
        &["refute", "empty.vir", "mono", "votes.soc", "votes.soc", "1"],
        3,
        EMPTY,
    ),
    (
        &["refute", "rule.vir", "mono", "short.soc", "votes.soc", "1"],
        4,
        SHORT_LINE,
    ),
    (
        &["refute", "rule.vir", "mono", "votes.soc", "short.soc", "1"],
        4,
        SHORT_LINE,
    ),
    (
        &["refute", "other.vir", "mono", "votes.soc", "votes.soc", "1"],
        5,
        UNREAD,
    ),
    (
        &["refute", "rule.vir", "mono", "other.soc", "votes.soc", "1"],
        5,
        UNREAD,
    ),
    (
        &["refute", "rule.vir", "mono", "votes.soc", "other.soc", "1"],
        5,
        UNREAD,
    ),
];

const BATCHES: &[Row] = &[
    (&["batch", "rule.vir"], 2, USAGE),
    (&["batch", "empty.vir", "names.txt"], 3, EMPTY),
    (&["batch", "rule.vir", "bytes.txt"], 3, BAD_BYTE),
    (&["batch", "other.vir", "names.txt"], 5, UNREAD),
    (&["batch", "rule.vir", "other.txt"], 5, UNREAD),
];

// The commands that run a rule.
const RUNS: &[&[&str]] = &[
    COUNT,
    &["report", "rule.vir", "votes.soc"],
    &["batch", "rule.vir", "names.txt"],
];

// A shelf with a rule and the files.
fn shelf_with(alloc: Global, rule: &[u8]) -> Result<MemoryShelf, AllocError> {
    let mut shelf = MemoryShelf::new(alloc);
    shelf.put("rule.vir", rule)?;
    for (name, content) in FILES {
        shelf.put(name, content)?;
    }
    Ok(shelf)
}

#[test]
fn each_cause_has_its_status(rt: HostRuntime) -> Result<(), AllocError> {
    for rows in [RULES, PROFILES, RULES_AND_PROFILES, PAIRS, BATCHES] {
        for (words, status, line) in rows {
            let mut shelf = shelf_with(rt.alloc(), ELECT)?;
            expect_call(&rt, rt.alloc(), words, &mut shelf, *status, b"", line)?;
        }
    }
    Ok(())
}

// A bench that serves the modules of a fixed split alone.
#[test]
fn an_unserved_module_stops_each_run(rt: HostRuntime) -> Result<(), AllocError> {
    let alloc = rt.alloc();
    for words in RUNS {
        let mut bench = Bench::new(alloc);
        bench.push(Box::new(alloc, FixedCounter::new())?)?;
        let mut shelf = shelf_with(alloc, PLURALITY)?;
        let mut out = MemorySink::new(alloc, 8);
        let mut err = MemorySink::new(alloc, 8);
        let words = owned(alloc, words)?;
        let status = virage(alloc, &words, &mut shelf, &mut out, &mut err, &mut bench);
        assert!(rt; status == 8);
        assert!(rt; out.bytes().is_empty());
        assert!(rt; err.bytes() == b"no counter for plurality\n".as_slice());
        assert!(rt; bench.runs() == 0);
    }
    Ok(())
}
