// Positional scores and splits of a small election, worked out by hand.
use crate::elections::election_of;
use std::alloc::Global;
use std::process::Abort;
use std::test::Fail;
use vir_positional::{
    Elimination, Weighing, WeightForm, WeightRule, Weights, positional_score, positional_split,
};
use vir_profile::AltSet;
use vir_samples::DIVIDED;
use vir_tables::Election;

// A list of weights, an elimination, the scores, and who is rejected.
type Row = (&'static [u64], Elimination, [i128; 3], [bool; 3]);

const ROWS: &[Row] = &[
    (
        &[2, 1, 0],
        Elimination::Min,
        [8, 12, 7],
        [false, false, true],
    ),
    (
        &[3, 1, 0],
        Elimination::Upto,
        [12, 15, 9],
        [true, false, true],
    ),
    (
        &[3, 1, 0],
        Elimination::Below,
        [12, 15, 9],
        [false, false, true],
    ),
    (&[1], Elimination::Max, [9, 9, 9], [false, false, false]),
    (&[1, 1, 0], Elimination::Max, [4, 9, 5], [true, false, true]),
    (&[1, 0], Elimination::Min, [4, 3, 2], [false, false, true]),
];

// A list, and whether it is one of weights.
const LISTS: &[(&[u64], bool)] = &[
    (&[0, 1], false),
    (&[], false),
    (&[1_000_001, 0], false),
    (&[1_000_000, 1_000_000], true),
    (&[5, 3, 4], false),
    (&[0], true),
];

// The rule of this list of weights.
fn rule_of(rt: &impl Abort, alloc: Global, list: &[u64]) -> Result<WeightRule, Fail> {
    match Weights::of(Vec::from_slice(alloc, list)?) {
        Some(weights) => Ok(WeightRule::new(WeightForm::List(weights))),
        None => panic!(rt; "no weights: {list:?}"),
    }
}

fn expect_row(rt: &impl Abort, election: &Election, rule: &WeightRule, row: &Row) {
    let domain = AltSet::all(election.alternatives());
    let split = positional_split(row.1, rule, election, &domain);
    for x in 1..4u16 {
        assert!(rt; domain.has(x));
        let place = usize::from(x) - 1;
        let score = positional_score(rule, election, &domain, x);
        assert!(rt; score == row.2[place], "{:?}: {x} has {score}", row.0);
        assert!(rt; split.rejected.has(x) == row.3[place], "{:?}: {x}", row.0);
        assert!(rt; split.deferred.has(x) != row.3[place], "{:?}: {x}", row.0);
    }
}

#[test]
fn rows_of_scores_and_splits(rt: HostRuntime) -> Result<(), Fail> {
    let alloc = rt.alloc();
    let election = election_of(alloc, DIVIDED)?;
    for row in ROWS {
        let rule = rule_of(&rt, alloc, row.0)?;
        expect_row(&rt, &election, &rule, row);
    }
    Ok(())
}

#[test]
fn lists_that_rise_are_no_weights(rt: HostRuntime) -> Result<(), Fail> {
    for (list, are) in LISTS {
        let weights = Weights::of(Vec::from_slice(rt.alloc(), list)?);
        assert!(rt; weights.is_some() == *are, "{list:?}");
    }
    Ok(())
}

// A list of 1,025 weights is too long, and one of 1,024 isn't.
#[test]
fn lists_of_1024_weights(rt: HostRuntime) -> Result<(), Fail> {
    for (length, are) in [(1_024u64, true), (1_025, false)] {
        let mut list = Vec::new(rt.alloc());
        for i in 0..length {
            list.push(2_000 - i)?;
        }
        assert!(rt; Weights::of(list).is_some() == are, "{length}");
    }
    Ok(())
}

#[test]
fn the_last_weight_goes_for_further_places(rt: HostRuntime) -> Result<(), Fail> {
    let rule = rule_of(&rt, rt.alloc(), &[7, 4])?;
    assert!(rt; rule.weight(0, 4) == 7 && rule.weight(1, 4) == 4 && rule.weight(3, 4) == 4);
    let borda = WeightRule::new(WeightForm::Borda);
    assert!(rt; borda.weight(0, 4) == 3 && borda.weight(3, 4) == 0);
    Ok(())
}
