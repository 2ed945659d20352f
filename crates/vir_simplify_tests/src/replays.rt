// Steps that are replayed.
use crate::terms::{expect_text, steps_of};
use std::alloc::{AllocError, Global};
use std::process::Abort;
use vir_read::TextError;
use vir_samples::term_of;
use vir_simplify::Equation::{self, *};
use vir_simplify::replay;

// A term, steps, and what these make of it.
struct Row(
    &'static str,
    &'static [(Equation, u32)],
    Option<&'static str>,
);

const ROWS: &[Row] = &[
    Row("elect", &[], Some("elect")),
    Row("elect", &[(SeqAssocRight, 0)], None),
    Row(
        "seq(seq(defer,elect),defer)",
        &[(SeqAssocRight, 0)],
        Some("seq(defer,seq(elect,defer))"),
    ),
    Row(
        "seq(defer,seq(elect,drop(1)))",
        &[(SeqAssocLeft, 0)],
        Some("seq(seq(defer,elect),drop(1))"),
    ),
    Row("seq(defer,elect)", &[(SeqAssocLeft, 0)], None),
    Row(
        "par(drop(1),until(2,seq(drop(2),seq(elect,defer))))",
        &[(SeqAssocLeft, 3), (SeqDeferRight, 3)],
        Some("par(drop(1),until(2,seq(drop(2),elect)))"),
    ),
    Row("seq(defer,elect)", &[(SeqDeferLeft, 1)], None),
    Row("seq(defer,elect)", &[(SeqDeferLeft, 3)], None),
    Row("rev(rev(elect))", &[(RevRev, 0)], Some("rev(defer)")),
    Row("rev(rev(elect))", &[(RevElect, 1), (RevElect, 1)], None),
];

fn expect_replay(rt: &impl Abort, alloc: Global, row: &Row) -> Result<(), TextError> {
    let Row(text, steps, expected) = row;
    let term = term_of(alloc, text)?;
    let steps = steps_of(alloc, steps)?;
    match (replay(alloc, &term, &steps)?, expected) {
        (Some(found), Some(expected)) => Ok(expect_text(rt, alloc, &found, expected)?),
        (found, expected) => {
            assert!(rt; found.is_none() && expected.is_none(), "{text}");
            Ok(())
        }
    }
}

#[test]
fn steps_are_taken_in_their_order(rt: HostRuntime) -> Result<(), TextError> {
    for row in ROWS {
        expect_replay(&rt, rt.alloc(), row)?;
    }
    Ok(())
}

// `seq(seq(elect,elect),m)`, where m is so many revisions of `elect`.
fn deep_text(alloc: Global, revisions: usize) -> Result<String, AllocError> {
    let mut text = String::new(alloc);
    text.push_str("seq(seq(elect,elect),")?;
    for _ in 0..revisions {
        text.push_str("rev(")?;
    }
    text.push_str("elect")?;
    for _ in 0..revisions {
        text.push_str(")")?;
    }
    text.push_str(")")?;
    Ok(text)
}

// How many revisions, and whether moving the sequence to the right leads to a term within the limits: it is
// nested two levels deeper than they are.
const DEPTHS: &[(usize, bool)] = &[(61, true), (62, false)];

#[test]
fn each_result_is_within_the_limits(rt: HostRuntime) -> Result<(), TextError> {
    let alloc = rt.alloc();
    for (revisions, fits) in DEPTHS {
        let term = term_of(alloc, &deep_text(alloc, *revisions)?)?;
        assert!(rt; term.within_limits());
        let steps = steps_of(alloc, &[(SeqAssocRight, 0)])?;
        assert!(rt;
            replay(alloc, &term, &steps)?.is_some() == *fits,
            "{revisions}"
        );
    }
    Ok(())
}
