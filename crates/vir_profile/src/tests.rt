// Lines that a profile takes, and lines that it hands back. Names are tested in the crates above.
use crate::{ALTERNATIVES_IN_PLACE, AddFault, Ballot, Entry, NARROW, Profile, Refused, laws};
use std::alloc::{AllocError, Global};
use std::process::Abort;

// Adds a line of this weight and this order, and gives it back if it is refused.
fn add(
    alloc: Global,
    profile: &mut Profile,
    weight: u64,
    order: &[u16],
) -> Result<Option<Refused>, AllocError> {
    let order = Ballot::of(alloc, Vec::from_slice(alloc, order)?)?;
    Ok(profile.add(Entry { weight, order }).err())
}

fn is_order(ballot: &Ballot, order: &[u16]) -> bool {
    for i in 0..ballot.len() {
        if order.get(i) != Some(&ballot.at(i)) {
            return false;
        }
    }
    ballot.len() == order.len()
}

fn expect_refused(
    rt: &impl Abort,
    refused: Option<Refused>,
    weight: u64,
    order: &[u16],
    fault: AddFault,
) {
    let Some(refused) = refused else {
        panic!(rt; "{order:?} was added");
    };
    assert!(rt; refused.fault == fault, "{order:?}");
    assert!(rt; refused.entry.weight == weight, "{order:?}");
    assert!(rt; is_order(&refused.entry.order, order), "{order:?}");
}

// The lines of a profile of three alternatives: 2^64 - 1 voters in all.
const TAKEN: &[(u64, &[u16])] = &[(4, &[1, 2, 3]), (u64::MAX - 4, &[3, 2, 1]), (0, &[2, 1, 3])];

// Lines that it refuses, and the first fault of each.
const REFUSED: &[(u64, &[u16], AddFault)] = &[
    (1, &[1, 2], AddFault::Short),
    (1, &[], AddFault::Short),
    (1, &[0, 1, 2], AddFault::OutOfRange),
    (1, &[1, 4, 2], AddFault::OutOfRange),
    (1, &[1, 2, 2], AddFault::Repeated),
    (1, &[1, 1, 4], AddFault::Repeated),
    (1, &[4, 1, 1], AddFault::OutOfRange),
    (1, &[1, 2, 3, 1], AddFault::Repeated),
    (1, &[2, 1, 3], AddFault::TooManyVoters),
];

// A profile with these lines.
fn profile_of(
    rt: &impl Abort,
    alloc: Global,
    lines: &[(u64, &[u16])],
) -> Result<Profile, AllocError> {
    let mut profile = Profile::new(alloc, 3);
    for (weight, order) in lines {
        assert!(rt;
            add(alloc, &mut profile, *weight, order)?.is_none(),
            "{order:?}"
        );
    }
    Ok(profile)
}

// However a ballot of this order is made, it lists it.
fn expect_listed(rt: &impl Abort, alloc: Global, order: &[u16]) -> Result<(), AllocError> {
    let mut room = [0; NARROW];
    assert!(rt; Ballot::from_slice(alloc, order)?.alternatives(&mut room) == order);
    let ballot = Ballot::of(alloc, Vec::from_slice(alloc, order)?)?;
    assert!(rt; ballot.alternatives(&mut room) == order);
    assert!(rt; is_order(&ballot, order));
    Ok(())
}

const ORDER: &[u16] = &[16, 15, 14, 13, 12, 11, 10, 9, 8, 7, 6, 5, 4, 3, 2, 1];

// Orders that stand in the ballot itself, the longest of them among these, and longer ones.
#[test]
fn ballots_of_every_length_list_their_order(rt: HostRuntime) -> Result<(), AllocError> {
    assert!(rt; ALTERNATIVES_IN_PLACE == 14);
    for length in 0..ORDER.len() + 1 {
        expect_listed(&rt, rt.alloc(), &ORDER[..length])?;
    }
    expect_listed(&rt, rt.alloc(), &[256, 1])?;
    expect_listed(&rt, rt.alloc(), &[255, 1])?;
    Ok(())
}

#[test]
fn lines_are_added(rt: HostRuntime) -> Result<(), AllocError> {
    let profile = profile_of(&rt, rt.alloc(), TAKEN)?;
    assert!(rt; profile.lines() == 3);
    assert!(rt; profile.entries().len() == 3);
    assert!(rt; profile.total() == u64::MAX);
    assert!(rt; profile.alternatives() == 3);
    assert!(rt; profile.line(0).map(|first| first.weight) == Some(4));
    assert!(rt; profile.line(3).is_none());
    Ok(())
}

#[test]
fn lines_are_handed_back(rt: HostRuntime) -> Result<(), AllocError> {
    let mut profile = profile_of(&rt, rt.alloc(), TAKEN)?;
    for (weight, order, fault) in REFUSED {
        let refused = add(rt.alloc(), &mut profile, *weight, order)?;
        expect_refused(&rt, refused, *weight, order, *fault);
        assert!(rt; profile.lines() == 3);
    }
    Ok(())
}

#[test]
fn laws_can_be_called() {
    laws::accepted_orders();
    laws::profiles_are_complete();
    laws::restricted_orders();
    laws::restricted_to_the_whole();
    laws::restriction_keeps_pairs();
    laws::condorcet_winner_is_unique();
    laws::condorcet_winner_stays();
}
