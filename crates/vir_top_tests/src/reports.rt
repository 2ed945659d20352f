// Reports over a shelf and sinks in memory: their text, what stops them, and each call of a device failing in turn.
use crate::calls::{
    DIVIDED, ELECT, EMPTY, SHORT, UNREAD, USAGE, expect_call, full_shelf, owned, status_of,
};
use std::alloc::AllocError;
use std::process::Abort;
use vir_counter::FixedCounter;
use vir_machine::Bench;
use vir_outside::MemorySink;
use vir_top::virage;

const REPORT: &[&str] = &["report", "rule.vir", "votes.soc"];

const MOST_WINS: &[u8] = b"r = seq(max(copeland),elect);";

const MOST_WINS_REPORTED: &[u8] = b"rule seq(max(copeland),elect)
alternatives 3
voters 9
elected: 2
rejected: 1 3
deferred:
underived ne
- ne-seq 2 ne of elect
underived ea
- ea-seq 1 ea of max(copeland)
holds el el-seq-second(nb-leaf,el-leaf)
underived defers(1)
- defers-seq-one 3 defers(1) of elect
- defers-seq-both 1 defers(1) of max(copeland)
underived rejects(1)
- no rule
underived elim(1)
- no rule
holds nb nb-seq(nb-leaf,nb-el(el-leaf))
underived decr
- decr-seq 1 decr of max(copeland)
- decr-elim 1 elim(1) of seq(max(copeland),elect)
- decr-rejects 1 rejects(1) of seq(max(copeland),elect)
- decr-defers 1 ne of seq(max(copeland),elect)
underived dli
- dli-seq-both 1 dli of max(copeland)
- dli-seq-one 2 ne of elect
underived imono
- no rule
underived dimono
- dimono-dli 1 dli of seq(max(copeland),elect)
underived dmono
- dmono-dli 1 dli of seq(max(copeland),elect)
- dmono-dimono 1 dimono of seq(max(copeland),elect)
holds mono mono-seq-ea(ne-leaf,dmono-leaf,ea-leaf)
holds cc cc-seq-dcc(dcc-leaf,el-leaf)
underived dcc
- dcc-seq-ccomp 3 dcc of elect
- dcc-seq-first 2 ne of elect
underived cprog
- cprog-seq-first 2 ccomp of elect
- cprog-seq-second 3 cprog of elect
- cprog-dcc 1 dcc of seq(max(copeland),elect)
holds ccomp ccomp-cc(cc-seq-dcc(dcc-leaf,el-leaf))
holds neut neut-seq(neut-leaf,neut-leaf)
";

// A profile with names of two of its alternatives, and the lines on it.
const NAMED: &[u8] = b"# NUMBER ALTERNATIVES: 3
# ALTERNATIVE NAME 3: Ruiz
# ALTERNATIVE NAME 1: Ito, K.: list A
7: 3,1,2
";

const NAMED_REPORTED: &[u8] = b"rule elect
alternatives 3
voters 7
name 1: Ito, K.: list A
name 3: Ruiz
elected: 1 2 3
rejected:
deferred:
";

const SEQUENTIAL_MAJORITY: &[u8] =
    b"r = seq(loop(1,par(seq(pass(2),seq(rev(plurality),pass(1))),drop(2))),elect);";

const SEQUENTIAL_MAJORITY_IS_MONOTONE: &[u8] = b"\nholds mono mono-seq-defers(\
dli-loop(dli-par(disj-seq-left(disj-pass-drop),dli-seq-both(dli-leaf,\
dli-seq-one(dimono-rev(imono-leaf),ne-leaf,defers-leaf,dmono-dli(dli-leaf))),dli-leaf)),\
ne-loop(ne-par(ne-seq(ne-leaf,ne-seq(ne-rev,ne-leaf)),ne-leaf)),\
defers-loop-elim(elim-par-left(ne-seq(ne-leaf,ne-seq(ne-rev,ne-leaf)),defers-seq-one(ne-leaf,nb-leaf,\
defers-seq-one(ne-rev,nb-rev(el-leaf),defers-leaf)),rejects-leaf,disj-seq-left(disj-pass-drop)),\
ne-par(ne-seq(ne-leaf,ne-seq(ne-rev,ne-leaf)),ne-leaf)),\
el-leaf)\n";

const NO_CONDORCET_CONSISTENCY: &[u8] = b"\nunderived cc
- cc-seq-first 1 cc of loop(1,par(seq(pass(2),seq(rev(plurality),pass(1))),drop(2)))
- cc-seq-dcc 1 dcc of loop(1,par(seq(pass(2),seq(rev(plurality),pass(1))),drop(2)))
- cc-seq-ccomp 1 ccomp of loop(1,par(seq(pass(2),seq(rev(plurality),pass(1))),drop(2)))
";

const INSTANT_RUNOFF_IS_NOT_DERIVED: &[u8] = b"\nunderived mono
- mono-seq-defers 1 dli of loop(1,min(plurality))
- mono-seq-ea 2 dmono of loop(1,min(plurality))
- mono-ne 1 ne of seq(loop(1,min(plurality)),elect)
- mono-ea 1 ea of seq(loop(1,min(plurality)),elect)
- mono-imono 1 imono of seq(loop(1,min(plurality)),elect)
";

// A rule file, a profile, and lines of the report.
const LINES: &[(&[u8], &[u8], &[u8])] = &[
    (ELECT, NAMED, NAMED_REPORTED),
    (
        SEQUENTIAL_MAJORITY,
        DIVIDED,
        SEQUENTIAL_MAJORITY_IS_MONOTONE,
    ),
    (SEQUENTIAL_MAJORITY, DIVIDED, NO_CONDORCET_CONSISTENCY),
    (
        b"r = seq(loop(1,min(plurality)),elect);",
        DIVIDED,
        INSTANT_RUNOFF_IS_NOT_DERIVED,
    ),
];

#[test]
fn a_report_tells_of_each_property(rt: HostRuntime) -> Result<(), AllocError> {
    let mut shelf = full_shelf(rt.alloc(), MOST_WINS, DIVIDED)?;
    expect_call(
        &rt,
        rt.alloc(),
        REPORT,
        &mut shelf,
        0,
        MOST_WINS_REPORTED,
        b"",
    )
}

// The lines stand in the text, one after another.
fn expect_lines(rt: &impl Abort, text: &[u8], lines: &[u8]) {
    assert!(rt; !lines.is_empty());
    assert!(rt; text.windows(lines.len()).any(|part| part == lines));
}

#[test]
fn reports_have_these_lines(rt: HostRuntime) -> Result<(), AllocError> {
    for (rule, profile, lines) in LINES {
        let mut shelf = full_shelf(rt.alloc(), rule, profile)?;
        let mut out = MemorySink::new(rt.alloc(), 100);
        let mut err = MemorySink::new(rt.alloc(), 100);
        let status = status_of(rt.alloc(), REPORT, &mut shelf, &mut out, &mut err)?;
        assert!(rt; status == 0);
        expect_lines(&rt, out.bytes(), lines);
    }
    Ok(())
}

// Words, the contents of both files, the status and the line of a report that isn't made.
type Refusal = (
    &'static [&'static str],
    &'static [u8],
    &'static [u8],
    u8,
    &'static [u8],
);

const REFUSALS: &[Refusal] = &[
    (&["report"], ELECT, DIVIDED, 2, USAGE),
    (&["report", "rule.vir"], ELECT, DIVIDED, 2, USAGE),
    (
        &["report", "rule.vir", "votes.soc", "more"],
        ELECT,
        DIVIDED,
        2,
        USAGE,
    ),
    (REPORT, b"", SHORT, 3, EMPTY),
    (
        REPORT,
        ELECT,
        SHORT,
        4,
        b"profile refused: Short at line 2\n",
    ),
    (
        &["report", "other.vir", "votes.soc"],
        ELECT,
        DIVIDED,
        5,
        UNREAD,
    ),
    (
        &["report", "rule.vir", "other.soc"],
        ELECT,
        DIVIDED,
        5,
        UNREAD,
    ),
];

#[test]
fn refused_files_are_not_reported_on(rt: HostRuntime) -> Result<(), AllocError> {
    for (words, rule, profile, status, line) in REFUSALS {
        let mut shelf = full_shelf(rt.alloc(), rule, profile)?;
        expect_call(&rt, rt.alloc(), words, &mut shelf, *status, b"", line)?;
    }
    Ok(())
}

#[test]
fn an_unserved_module_stops_a_report(rt: HostRuntime) -> Result<(), AllocError> {
    let alloc = rt.alloc();
    let mut bench = Bench::new(alloc);
    bench.push(Box::new(alloc, FixedCounter::new())?)?;
    let mut shelf = full_shelf(alloc, MOST_WINS, DIVIDED)?;
    let mut out = MemorySink::new(alloc, 8);
    let mut err = MemorySink::new(alloc, 8);
    let words = owned(alloc, REPORT)?;
    let status = virage(alloc, &words, &mut shelf, &mut out, &mut err, &mut bench);
    assert!(rt; status == 8);
    assert!(rt; out.bytes().is_empty());
    assert!(rt; err.bytes() == b"no counter for max(copeland)\n".as_slice());
    assert!(rt; bench.runs() == 0);
    Ok(())
}

#[test]
fn each_failing_read_stops_a_report(rt: HostRuntime) -> Result<(), AllocError> {
    // Each file is selected, read, and read to its end.
    for call in 1..7 {
        let mut shelf = full_shelf(rt.alloc(), MOST_WINS, DIVIDED)?;
        shelf.fail_at(call)?;
        expect_call(&rt, rt.alloc(), REPORT, &mut shelf, 5, b"", UNREAD)?;
    }
    Ok(())
}

// How many bytes the output takes at a time.
const PIECE: usize = 200;

#[test]
fn each_failing_write_cuts_a_report(rt: HostRuntime) -> Result<(), AllocError> {
    let mut failing = 1;
    for written in MOST_WINS_REPORTED.chunks(PIECE) {
        let mut shelf = full_shelf(rt.alloc(), MOST_WINS, DIVIDED)?;
        let mut out = MemorySink::new(rt.alloc(), PIECE);
        out.fail_at(failing)?;
        let mut err = MemorySink::new(rt.alloc(), 100);
        let status = status_of(rt.alloc(), REPORT, &mut shelf, &mut out, &mut err)?;
        assert!(rt; status == 6);
        assert!(rt; MOST_WINS_REPORTED.starts_with(out.bytes()));
        assert!(rt; !out.bytes().ends_with(written));
        assert!(rt; err.bytes() == b"write fault\n".as_slice());
        failing = failing.saturating_add(1);
    }
    Ok(())
}
