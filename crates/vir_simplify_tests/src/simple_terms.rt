// Terms, and what they are simplified to.
use crate::terms::{expect_text, steps_of};
use std::alloc::Global;
use std::process::Abort;
use vir_read::TextError;
use vir_samples::term_of;
use vir_simplify::Equation::{self, *};
use vir_simplify::{next_step, replay, simplify};

// A term, what it is simplified to, and the steps.
struct Row(&'static str, &'static str, &'static [(Equation, u32)]);

// Each equation that makes a term smaller.
const ONE_STEP: &[Row] = &[
    Row("seq(defer,plurality)", "plurality", &[(SeqDeferLeft, 0)]),
    Row("seq(max(borda),defer)", "max(borda)", &[(SeqDeferRight, 0)]),
    Row("seq(elect,max(borda))", "elect", &[(SeqElect, 0)]),
    Row("seq(plurality,elect)", "plurality", &[(SeqPlurality, 0)]),
    Row("seq(rev(defer),elect)", "rev(defer)", &[(SeqNobody, 0)]),
    Row("rev(elect)", "defer", &[(RevElect, 0)]),
    Row("rev(rev(plurality))", "rev(defer)", &[(RevRev, 0)]),
    Row(
        "par(pass(2,[3,1]),pass(2,[3,1]))",
        "pass(2,[3,1])",
        &[(ParSame, 0)],
    ),
    Row("par(elect,max(borda))", "elect", &[(ParElectLeft, 0)]),
    Row("par(max(borda),elect)", "elect", &[(ParElectRight, 0)]),
    Row("par(rev(defer),drop(1))", "drop(1)", &[(ParNobodyLeft, 0)]),
    Row("par(drop(1),rev(defer))", "drop(1)", &[(ParNobodyRight, 0)]),
    Row("loop(2,defer)", "defer", &[(LoopDefer, 0)]),
    Row(
        "loop(2,loop(2,min(borda)))",
        "loop(2,min(borda))",
        &[(LoopLoop, 0)],
    ),
    Row("until(2,defer)", "defer", &[(UntilDefer, 0)]),
    Row(
        "until(2,until(2,min(borda)))",
        "until(2,min(borda))",
        &[(UntilUntil, 0)],
    ),
];

// Parts come before the whole, the first part before the second, and of two equations the first.
const MORE_STEPS: &[Row] = &[
    Row(
        "seq(defer,seq(rev(elect),max(borda)))",
        "max(borda)",
        &[(RevElect, 3), (SeqDeferLeft, 2), (SeqDeferLeft, 0)],
    ),
    Row("rev(rev(elect))", "rev(defer)", &[(RevElect, 1)]),
    Row(
        "par(seq(defer,plurality),rev(elect))",
        "par(plurality,defer)",
        &[(SeqDeferLeft, 1), (RevElect, 2)],
    ),
    Row(
        "loop(1,par(drop(1),rev(rev(elect))))",
        "loop(1,drop(1))",
        &[(RevElect, 4), (ParNobodyRight, 1)],
    ),
    Row(
        "seq(seq(drop(1),defer),rev(elect))",
        "drop(1)",
        &[(SeqDeferRight, 1), (RevElect, 2), (SeqDeferRight, 0)],
    ),
    Row("seq(defer,defer)", "defer", &[(SeqDeferLeft, 0)]),
    Row("seq(elect,defer)", "elect", &[(SeqDeferRight, 0)]),
    Row("par(rev(defer),rev(defer))", "rev(defer)", &[(ParSame, 0)]),
    Row("par(elect,rev(defer))", "elect", &[(ParElectLeft, 0)]),
];

// No equation fits: another order, another number, another loop, or the two rules the other way round.
const NO_STEP: &[Row] = &[
    Row("seq(max(copeland),elect)", "seq(max(copeland),elect)", &[]),
    Row("elect", "elect", &[]),
    Row("rev(defer)", "rev(defer)", &[]),
    Row("seq(drop(1),plurality)", "seq(drop(1),plurality)", &[]),
    Row("par(defer,drop(1))", "par(defer,drop(1))", &[]),
    Row(
        "par(pass(2,[3,1]),pass(2,[1,3]))",
        "par(pass(2,[3,1]),pass(2,[1,3]))",
        &[],
    ),
    Row("par(pass(1),pass(2))", "par(pass(1),pass(2))", &[]),
    Row(
        "loop(2,loop(3,min(borda)))",
        "loop(2,loop(3,min(borda)))",
        &[],
    ),
    Row(
        "loop(2,until(2,min(borda)))",
        "loop(2,until(2,min(borda)))",
        &[],
    ),
    Row(
        "until(2,loop(2,min(borda)))",
        "until(2,loop(2,min(borda)))",
        &[],
    ),
    Row(
        "seq(seq(drop(1),drop(1)),drop(1))",
        "seq(seq(drop(1),drop(1)),drop(1))",
        &[],
    ),
];

fn expect_rows(rt: &impl Abort, alloc: Global, rows: &[Row]) -> Result<(), TextError> {
    for Row(text, simple, steps) in rows {
        let term = term_of(alloc, text)?;
        assert!(rt; term.within_limits());
        let steps = steps_of(alloc, steps)?;
        assert!(rt; next_step(&term) == steps.first().copied(), "{text}");
        let found = simplify(alloc, &term)?;
        expect_text(rt, alloc, &found.term, simple)?;
        assert!(rt; found.trace.steps() == steps.as_slice(), "{text}");
        assert!(rt; found.trace.len() == steps.len() && found.trace.is_empty() == steps.is_empty());
        assert!(rt; found.trace.at(0) == steps.first() && found.trace.at(steps.len()) == None);
        let Some(again) = replay(alloc, &term, found.trace.steps())? else {
            panic!(rt; "no replay of {text}");
        };
        assert!(rt; again.equals(&found.term), "{text}");
    }
    Ok(())
}

#[test]
fn each_equation_makes_a_step(rt: HostRuntime) -> Result<(), TextError> {
    expect_rows(&rt, rt.alloc(), ONE_STEP)
}

#[test]
fn parts_come_first(rt: HostRuntime) -> Result<(), TextError> {
    expect_rows(&rt, rt.alloc(), MORE_STEPS)
}

#[test]
fn some_terms_have_no_step(rt: HostRuntime) -> Result<(), TextError> {
    expect_rows(&rt, rt.alloc(), NO_STEP)
}
