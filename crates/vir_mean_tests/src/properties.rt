// Properties that rules have or lack, and profiles that show it.
use crate::rules::Word;
use crate::rules::Word::{Drop, Loop, Module, Par, Pass, Seq};
use crate::splits::{ALL, Row, expect_splits};
use crate::votes::SILENT;
use std::test::Fail;
use vir_samples::{AFTER, BEFORE, CYCLE, DIVIDED, Votes};
use vir_term::LeafKind::{Defer, Elect, Max, Min, Plurality};
use vir_term::Score;

// The alternative that fewest put first goes, until one is left, who is elected.
const INSTANT_RUNOFF: &[Word] = &[Module(Min(Score::Plurality)), Loop(1), Module(Elect), Seq];

// Two voters prefer 1 to 2, and then lift 2. No rule is asked about 3.
const LOW: Votes<'static> = &[(2, [1, 2, 3]), (1, [2, 1, 3])];

const RISEN: Votes<'static> = &[(2, [2, 1, 3]), (1, [2, 1, 3])];

const WINNERS_OR_ALL: &[Word] = &[Module(Plurality), Module(Defer), Par];

const FAILURES: &[(Votes<'static>, Row)] = &[
    // Condorcet consistency of plurality: 2 beats both others, and 1 is elected.
    (
        DIVIDED,
        (&[Module(Max(Score::Condorcet))], ALL, &[], &[1, 3], &[2]),
    ),
    (DIVIDED, (&[Module(Plurality)], ALL, &[1], &[2, 3], &[])),
    // Monotonicity of instant runoff: 1 is elected, rises, and is rejected.
    (BEFORE, (INSTANT_RUNOFF, ALL, &[1], &[2, 3], &[])),
    (AFTER, (INSTANT_RUNOFF, ALL, &[3], &[1, 2], &[])),
    // Deferred-lift invariance where the winners are elected and all others deferred: 2 is deferred,
    // rises, and is elected.
    (LOW, (WINNERS_OR_ALL, &[1, 2], &[1], &[], &[2])),
    (RISEN, (WINNERS_OR_ALL, &[1, 2], &[2], &[], &[1])),
    // Two are to be deferred, and the first turn leaves one.
    (CYCLE, (&[Pass(1, &[]), Loop(2)], ALL, &[], &[2, 3], &[1])),
];

// Of the first three alternatives, 1 and 2 are each passed, or dropped so that the first of the others
// is passed: two are deferred, where all numbers are from 1 on.
const FIRST_TWO: &[Word] = &[
    Pass(3, &[]),
    Drop(1, &[2]),
    Pass(1, &[2]),
    Seq,
    Drop(1, &[1]),
    Pass(1, &[1]),
    Seq,
    Par,
    Pass(1, &[2]),
    Pass(1, &[1]),
    Par,
    Par,
    Seq,
];

const TWO_DEFERRED: &[Row] = &[
    (FIRST_TWO, ALL, &[], &[3], &[1, 2]),
    (FIRST_TWO, &[1, 2], &[], &[], &[1, 2]),
    (FIRST_TWO, &[1, 3], &[], &[], &[1, 3]),
    (FIRST_TWO, &[2, 3], &[], &[], &[2, 3]),
];

#[test]
fn two_deferred_of_alternatives_from_1_on(rt: HostRuntime) -> Result<(), Fail> {
    expect_splits(&rt, rt.alloc(), SILENT, TWO_DEFERRED)
}

#[test]
fn properties_that_fail(rt: HostRuntime) -> Result<(), Fail> {
    for (votes, row) in FAILURES {
        expect_splits(&rt, rt.alloc(), votes, &[*row])?;
    }
    Ok(())
}
