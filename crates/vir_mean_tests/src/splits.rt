// Rules on small profiles.
use crate::rules::Word::{Drop, Loop, Module, Par, Pass, Rev, Seq, Until};
use crate::rules::{Word, term_of};
use crate::votes::{SILENT, set_of};
use std::alloc::Global;
use std::process::Abort;
use std::test::Fail;
use vir_mean::plain_result;
use vir_profile::Split;
use vir_samples::{CYCLE, DIVIDED, Votes, profile_of};
use vir_term::LeafKind::{Below, Defer, Elect, Max, Min, Plurality, Upto};
use vir_term::Score;

/// Alternatives.
pub type Members = &'static [u16];

/// A rule, a set, and what of it is elected, rejected and deferred.
pub type Row = (&'static [Word], Members, Members, Members, Members);

/// All three alternatives.
pub const ALL: Members = &[1, 2, 3];

fn is_split(split: &Split, elected: Members, rejected: Members, deferred: Members) -> bool {
    split.elected.equals(&set_of(elected))
        && split.rejected.equals(&set_of(rejected))
        && split.deferred.equals(&set_of(deferred))
}

/// Counts each rule on its set, and wants its split.
pub fn expect_splits(
    rt: &impl Abort,
    alloc: Global,
    votes: Votes<'_>,
    rows: &[Row],
) -> Result<(), Fail> {
    let profile = profile_of(alloc, votes)?;
    for (words, domain, elected, rejected, deferred) in rows {
        let term = term_of(rt, alloc, words)?;
        let split = plain_result(alloc, &term, &profile, &set_of(domain))?;
        let right = is_split(&split, elected, rejected, deferred);
        assert!(rt; right, "{words:?} on {domain:?}");
    }
    Ok(())
}

// Pairs: 2 is before 1 for 5 voters and after it for 4, 3 before 1 for 5 and after it for 4, 2 before
// 3 for 7 and after it for 2. Without 3 its voters put 2 first.
const ON_DIVIDED: &[Row] = &[
    (&[Module(Plurality)], ALL, &[1], &[2, 3], &[]),
    (&[Module(Plurality)], &[1, 2], &[2], &[1], &[]),
    (&[Module(Plurality)], &[], &[], &[], &[]),
    (&[Module(Elect)], &[2, 3], &[2, 3], &[], &[]),
    (&[Module(Defer)], &[1, 3], &[], &[], &[1, 3]),
    (&[Module(Max(Score::Borda))], ALL, &[], &[1, 3], &[2]),
    (&[Module(Below(Score::Borda))], ALL, &[], &[1, 3], &[2]),
    (&[Module(Max(Score::Condorcet))], ALL, &[], &[1, 3], &[2]),
    (&[Module(Min(Score::Copeland))], ALL, &[], &[1], &[2, 3]),
    (&[Module(Upto(Score::Minimax))], ALL, &[], &[3], &[1, 2]),
    (&[Module(Min(Score::Plurality))], ALL, &[], &[3], &[1, 2]),
];

#[test]
fn modules_on_a_divided_profile(rt: HostRuntime) -> Result<(), Fail> {
    expect_splits(&rt, rt.alloc(), DIVIDED, ON_DIVIDED)
}

// Plurality elects 1; the least plurality score is that of 3; and of 1 and 2, plurality elects 2.
const COMPOSED: &[Row] = &[
    (&[Module(Plurality), Rev], ALL, &[], &[2, 3], &[1]),
    (
        &[Module(Plurality), Module(Elect), Seq],
        ALL,
        &[1],
        &[2, 3],
        &[],
    ),
    (
        &[Module(Defer), Module(Plurality), Seq],
        ALL,
        &[1],
        &[2, 3],
        &[],
    ),
    (
        &[Module(Defer), Module(Plurality), Seq],
        &[1, 2],
        &[2],
        &[1],
        &[],
    ),
    (
        &[Pass(2, &[]), Module(Plurality), Seq],
        ALL,
        &[2],
        &[1, 3],
        &[],
    ),
    (
        &[Module(Plurality), Module(Min(Score::Plurality)), Par],
        ALL,
        &[1],
        &[3],
        &[2],
    ),
    (
        &[Module(Min(Score::Plurality)), Loop(1), Module(Elect), Seq],
        ALL,
        &[2],
        &[1, 3],
        &[],
    ),
    (&[Drop(1, &[]), Loop(2)], ALL, &[], &[1], &[2, 3]),
    (&[Drop(1, &[]), Loop(5)], ALL, &[], &[1, 2, 3], &[]),
    (&[Module(Elect), Loop(3)], ALL, &[], &[], &[1, 2, 3]),
];

#[test]
fn compositions_on_a_divided_profile(rt: HostRuntime) -> Result<(), Fail> {
    expect_splits(&rt, rt.alloc(), DIVIDED, COMPOSED)
}

// The first turn leaves 1 and 2, or 3 alone: a loop goes on past its number, and an until stops there.
const UNTIL: &[Row] = &[
    (
        &[Module(Min(Score::Plurality)), Until(2)],
        ALL,
        &[],
        &[3],
        &[1, 2],
    ),
    (&[Drop(2, &[]), Until(2)], ALL, &[], &[1, 2], &[3]),
    (&[Drop(2, &[]), Loop(2)], ALL, &[], &[1, 2, 3], &[]),
    (&[Drop(2, &[]), Until(3)], ALL, &[], &[], &[1, 2, 3]),
    (&[Module(Defer), Until(1)], ALL, &[], &[], &[1, 2, 3]),
];

#[test]
fn loops_that_stop_at_few(rt: HostRuntime) -> Result<(), Fail> {
    expect_splits(&rt, rt.alloc(), DIVIDED, UNTIL)
}

const FIRST: &[Row] = &[
    (&[Pass(1, &[])], &[2, 3], &[], &[3], &[2]),
    (&[Pass(2, &[3, 1])], ALL, &[], &[2], &[1, 3]),
    (&[Drop(1, &[3])], ALL, &[], &[3], &[1, 2]),
    (&[Drop(2, &[3])], ALL, &[], &[1, 3], &[2]),
    (&[Drop(2, &[])], &[3], &[], &[3], &[]),
];

#[test]
fn the_first_in_a_fixed_order(rt: HostRuntime) -> Result<(), Fail> {
    expect_splits(&rt, rt.alloc(), SILENT, FIRST)
}

// All have the same scores.
const TIED: &[Row] = &[
    (
        &[Module(Min(Score::Borda)), Loop(1)],
        ALL,
        &[],
        &[],
        &[1, 2, 3],
    ),
    (&[Module(Upto(Score::Copeland))], ALL, &[], &[], &[1, 2, 3]),
    (&[Module(Max(Score::Condorcet))], ALL, &[], &[], &[1, 2, 3]),
    (&[Module(Plurality)], ALL, &[1, 2, 3], &[], &[]),
];

#[test]
fn where_all_are_tied(rt: HostRuntime) -> Result<(), Fail> {
    expect_splits(&rt, rt.alloc(), CYCLE, TIED)?;
    expect_splits(&rt, rt.alloc(), SILENT, TIED)
}
