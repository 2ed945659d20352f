// The scores of a small election, worked out by hand, and what they eliminate.
use crate::{Elimination, KeptScore, Scoring, eliminate};
use std::alloc::Global;
use std::process::Abort;
use std::test::Fail;
use vir_profile::{AltSet, Ballot, Entry, Profile, SocFile};
use vir_tables::Election;
use vir_term::Score;

// How many voters cast which order: 2 beats both others, and 1 loses to both.
const VOTES: &[(u64, [u16; 3])] = &[(4, [1, 2, 3]), (3, [2, 3, 1]), (2, [3, 2, 1])];

// A score, and what it is for each alternative.
const SCORES: &[(Score, [i128; 3])] = &[
    (Score::Plurality, [4, 3, 2]),
    (Score::Borda, [8, 12, 7]),
    (Score::Copeland, [-2, 2, 0]),
    (Score::Minimax, [4, 5, 2]),
    (Score::Condorcet, [0, 1, 0]),
];

// An eliminator, and whether it rejects each alternative.
const ELIMINATIONS: &[(Elimination, Score, [bool; 3])] = &[
    (Elimination::Max, Score::Copeland, [true, false, true]),
    (Elimination::Min, Score::Plurality, [false, false, true]),
    (Elimination::Below, Score::Borda, [true, false, true]),
    (Elimination::Upto, Score::Minimax, [false, false, true]),
];

fn election_of(alloc: Global, votes: &[(u64, [u16; 3])]) -> Result<Election, Fail> {
    let mut profile = Profile::new(alloc, 3);
    for (weight, order) in votes {
        let order = Ballot::from_slice(alloc, order)?;
        let weight = *weight;
        profile
            .add(Entry { weight, order })
            .map_err(|refused| refused.fault)?;
    }
    Ok(Election::of(alloc, SocFile::of(profile, Vec::new(alloc)))?)
}

fn expect_scores(rt: &impl Abort, election: &Election, score: Score, expected: &[i128; 3]) {
    let domain = AltSet::all(election.alternatives());
    let kept = KeptScore::new(score);
    for x in 1..4u16 {
        assert!(rt; domain.has(x));
        let value = kept.value(election, &domain, x);
        assert!(rt;
            value == expected[usize::from(x) - 1],
            "{score:?} of {x}: {value}"
        );
    }
}

fn expect_rejected(
    rt: &impl Abort,
    election: &Election,
    kind: Elimination,
    score: Score,
    expected: &[bool; 3],
) {
    let domain = AltSet::all(election.alternatives());
    let split = eliminate(kind, &KeptScore::new(score), election, &domain);
    for x in 1..4u16 {
        let rejected = split.rejected.has(x);
        assert!(rt;
            rejected == expected[usize::from(x) - 1],
            "{kind:?} {score:?}: {x}"
        );
        assert!(rt;
            split.deferred.has(x) != rejected,
            "{kind:?} {score:?}: {x}"
        );
    }
}

#[test]
fn scores_of_three_alternatives(rt: HostRuntime) -> Result<(), Fail> {
    let election = election_of(rt.alloc(), VOTES)?;
    for (score, expected) in SCORES {
        expect_scores(&rt, &election, *score, expected);
    }
    for (kind, score, expected) in ELIMINATIONS {
        expect_rejected(&rt, &election, *kind, *score, expected);
    }
    Ok(())
}
