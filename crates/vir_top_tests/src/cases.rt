// Suspected counterexamples, simplification and batches: words and files, and what they come to.
use crate::calls::{DIVIDED, SHORT, USAGE, expect_call};
use std::alloc::{AllocError, Global};
use std::process::Abort;
use vir_outside::MemoryShelf;

// Words, the contents of the files "rule.vir", "votes.soc" and "more.soc", and the status, the output and the error
// line of the call.
type Row = (
    &'static [&'static str],
    &'static [u8],
    &'static [u8],
    &'static [u8],
    u8,
    &'static [u8],
    &'static [u8],
);

const RUNOFF: &[u8] = b"r = seq(loop(1,min(plurality)),elect);";

const PLURALITY: &[u8] = b"r = plurality;";

const COPELAND: &[u8] = b"r = seq(max(copeland),elect);";

const BEFORE: &[u8] = b"# NUMBER ALTERNATIVES: 3\n6: 1,2,3\n5: 3,1,2\n4: 2,3,1\n2: 2,1,3\n";

const LIFTED: &[u8] = b"# NUMBER ALTERNATIVES: 3\n6: 1,2,3\n5: 3,1,2\n4: 2,3,1\n2: 1,2,3\n";

const CYCLE: &[u8] = b"# NUMBER ALTERNATIVES: 3\n1: 1,2,3\n1: 2,3,1\n1: 3,1,2\n";

const VIOLATED: &[u8] = b"violated\n";

const CLAUSE_HOLDS: &[u8] = b"not violated: ClauseHolds\n";

const MONO: &[&str] = &["refute", "rule.vir", "mono", "votes.soc", "more.soc", "1"];

const CC: &[&str] = &["refute", "rule.vir", "cc", "votes.soc"];

const REFUTATIONS: &[Row] = &[
    (MONO, RUNOFF, BEFORE, LIFTED, 0, VIOLATED, b""),
    (MONO, RUNOFF, BEFORE, BEFORE, 1, CLAUSE_HOLDS, b""),
    (
        &["refute", "rule.vir", "mono", "votes.soc", "more.soc", "4"],
        RUNOFF,
        BEFORE,
        LIFTED,
        1,
        b"not violated: NotALift\n",
        b"",
    ),
    (CC, PLURALITY, DIVIDED, b"", 0, VIOLATED, b""),
    (CC, COPELAND, DIVIDED, b"", 1, CLAUSE_HOLDS, b""),
    (
        CC,
        PLURALITY,
        CYCLE,
        b"",
        1,
        b"not violated: PremiseNotMet\n",
        b"",
    ),
    (
        CC,
        PLURALITY,
        SHORT,
        b"",
        4,
        b"",
        b"profile refused: Short at line 2\n",
    ),
    (
        MONO,
        RUNOFF,
        BEFORE,
        SHORT,
        4,
        b"",
        b"profile refused: Short at line 2\n",
    ),
    (
        &["refute", "rule.vir", "mono", "votes.soc"],
        RUNOFF,
        BEFORE,
        LIFTED,
        2,
        b"",
        USAGE,
    ),
    (
        &["refute", "rule.vir", "neut", "votes.soc"],
        RUNOFF,
        BEFORE,
        LIFTED,
        2,
        b"",
        USAGE,
    ),
    (
        &["refute", "rule.vir", "cc", "votes.soc", "more.soc", "1"],
        RUNOFF,
        BEFORE,
        LIFTED,
        2,
        b"",
        USAGE,
    ),
];

const SIMPLIFY: &[&str] = &["simplify", "rule.vir"];

const SIMPLIFICATIONS: &[Row] = &[
    (
        SIMPLIFY,
        b"r = seq(defer,seq(rev(elect),max(borda)));",
        b"",
        b"",
        0,
        b"simple max(borda)\nrev-elect 3\nseq-defer-left 2\nseq-defer-left 0\n",
        b"",
    ),
    (
        SIMPLIFY,
        b"r = rev(rev(plurality));",
        b"",
        b"",
        0,
        b"simple rev(defer)\nrev-rev 0\n",
        b"",
    ),
    (
        SIMPLIFY,
        COPELAND,
        b"",
        b"",
        0,
        b"simple seq(max(copeland),elect)\n",
        b"",
    ),
];

// The manifest stands in "more.soc"; a rule file is no profile.
const BATCH: &[&str] = &["batch", "rule.vir", "more.soc"];

const BATCHES: &[Row] = &[
    (
        BATCH,
        COPELAND,
        DIVIDED,
        b"votes.soc\nrule.vir\n\r\nvotes.soc",
        0,
        b"votes.soc voters 9 elected: 2 rejected: 1 3 deferred:
rule.vir refused NoAlternativeCount at line 1
votes.soc voters 9 elected: 2 rejected: 1 3 deferred:
profiles 3 refused 1
",
        b"",
    ),
    (
        BATCH,
        COPELAND,
        DIVIDED,
        b"",
        0,
        b"profiles 0 refused 0\n",
        b"",
    ),
    (
        BATCH,
        COPELAND,
        DIVIDED,
        b"votes.soc\nother.soc\n",
        5,
        b"",
        b"read fault\n",
    ),
    (
        BATCH,
        COPELAND,
        DIVIDED,
        b"a\n\xFF\n",
        3,
        b"",
        b"text refused: BadByte at byte 2\n",
    ),
];

// A shelf with three files.
fn shelf_of(
    alloc: Global,
    rule: &[u8],
    first: &[u8],
    second: &[u8],
) -> Result<MemoryShelf, AllocError> {
    let mut shelf = MemoryShelf::new(alloc);
    shelf.put("rule.vir", rule)?;
    shelf.put("votes.soc", first)?;
    shelf.put("more.soc", second)?;
    Ok(shelf)
}

// Each row comes to what it says.
fn expect_rows(rt: &impl Abort, alloc: Global, rows: &[Row]) -> Result<(), AllocError> {
    for (words, rule, first, second, status, text, line) in rows {
        let mut shelf = shelf_of(alloc, rule, first, second)?;
        expect_call(rt, alloc, words, &mut shelf, *status, text, line)?;
    }
    Ok(())
}

#[test]
fn suspected_counterexamples_are_judged(rt: HostRuntime) -> Result<(), AllocError> {
    expect_rows(&rt, rt.alloc(), REFUTATIONS)
}

#[test]
fn rules_are_simplified(rt: HostRuntime) -> Result<(), AllocError> {
    expect_rows(&rt, rt.alloc(), SIMPLIFICATIONS)
}

#[test]
fn many_profiles_are_counted(rt: HostRuntime) -> Result<(), AllocError> {
    expect_rows(&rt, rt.alloc(), BATCHES)
}
