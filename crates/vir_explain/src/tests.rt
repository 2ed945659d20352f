// The pairs of a small election, worked out by hand, and the laws. Explanations are tried where rules are read.
use crate::{
    accounts_are_true, last_visit_is_of_the_whole, push_pairs, texts_determine_visits,
    visited_modules_are_called, visits_are_an_account, visits_are_legible, visits_are_true,
    winner_is_the_condorcet_winner,
};
use std::alloc::Global;
use std::test::Fail;
use vir_profile::{Ballot, Entry, Profile, SocFile};
use vir_tables::Election;

// How many voters cast which order: 2 beats both others, and 1 loses to both.
const VOTES: &[(u64, [u16; 3])] = &[(4, [1, 2, 3]), (3, [2, 3, 1]), (2, [3, 2, 1])];

fn election(alloc: Global) -> Result<Election, Fail> {
    let mut profile = Profile::new(alloc, 3);
    for (weight, order) in VOTES {
        let order = Ballot::from_slice(alloc, order)?;
        let weight = *weight;
        profile
            .add(Entry { weight, order })
            .map_err(|refused| refused.fault)?;
    }
    Ok(Election::of(alloc, SocFile::of(profile, Vec::new(alloc)))?)
}

#[test]
fn pairs_of_three(rt: HostRuntime) -> Result<(), Fail> {
    let mut text = Vec::new(rt.alloc());
    push_pairs(&mut text, &election(rt.alloc())?)?;
    let expected: &[u8] =
        b"prefer 1: 0 4 4\nprefer 2: 5 0 7\nprefer 3: 5 2 0\ncondorcet winner: 2\n";
    assert!(rt; text.as_slice() == expected);
    Ok(())
}

#[test]
fn laws_can_be_called() {
    last_visit_is_of_the_whole();
    visits_are_true();
    visits_are_an_account();
    accounts_are_true();
    texts_determine_visits();
    visits_are_legible();
    visited_modules_are_called();
    winner_is_the_condorcet_winner();
}
