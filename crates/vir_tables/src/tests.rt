// What an election tells of small profiles.
ghost use Rattle.std.specs.Prelude.{◌≤◌};
ghost use Rattle.vir_profile.specs.SocFiles.{AreNames};

use crate::Election;
use std::alloc::{AllocError, Global};
use std::process::Abort;
use vir_mean::PLACES;
use vir_profile::{AltSet, Ballot, Entry, LIMIT, NARROW, Name, NameText, Profile, SocFile};

// Adds a line of this weight and this order.
fn add(
    rt: &impl Abort,
    alloc: Global,
    profile: &mut Profile,
    weight: u64,
    order: &[u16],
) -> Result<(), AllocError> {
    let order = Ballot::from_slice(alloc, order)?;
    let added = profile.add(Entry { weight, order });
    assert!(rt; added.is_ok());
    Ok(())
}

// The file of these lines, without names.
fn file_of(
    rt: &impl Abort,
    alloc: Global,
    m: u16,
    lines: &[(u64, &[u16])],
) -> Result<SocFile, AllocError>
    requires { (1 ≤ m) × (m ≤ LIMIT) }
{
    let mut profile = Profile::new(alloc, m);
    for (weight, order) in lines {
        add(rt, alloc, &mut profile, *weight, order)?;
    }
    Ok(SocFile::of(profile, Vec::new(alloc)))
}

// The election of these lines, with a table.
fn election_of(
    rt: &impl Abort,
    alloc: Global,
    m: u16,
    lines: &[(u64, &[u16])],
) -> Result<Election, AllocError>
    requires { (1 ≤ m) × (m ≤ LIMIT) }
{
    Election::of(alloc, file_of(rt, alloc, m, lines)?)
}

// As many voters put x before y.
#[tactic(auto, using(crate::proofs::RankedPairs::member_of_range))]
fn expect_pair(rt: &impl Abort, election: &Election, x: u16, y: u16, weight: u64, beats: bool) {
    let m = election.alternatives();
    assert!(rt; 1 <= x && x <= m);
    assert!(rt; 1 <= y && y <= m);
    assert!(rt; election.prefers(x, y) == weight, "{x} before {y}");
    assert!(rt; election.beats(x, y) == beats, "{x} before {y}");
}

// As many voters put the first alternatives first among the members of the set, one after another.
fn expect_first(rt: &impl Abort, election: &Election, domain: &AltSet, expected: &[u64]) {
    let mut weights = [0; PLACES];
    election.first_weights(domain, &mut weights);
    for i in 0..expected.len().min(PLACES) {
        assert!(rt; weights[i] == expected[i], "place {i}");
        assert!(rt;
            election.first_weight(domain, i as u16 + 1) == expected[i],
            "place {i}"
        );
    }
}

const LINES: &[(u64, &[u16])] = &[(4, &[1, 2, 3]), (3, &[2, 3, 1]), (2, &[3, 2, 1])];

// Two alternatives, how many voters put the first before the second, and whether it wins.
const PAIRS: &[(u16, u16, u64, bool)] = &[
    (1, 2, 4, false),
    (2, 1, 5, true),
    (1, 3, 4, false),
    (3, 1, 5, true),
    (2, 3, 7, true),
    (3, 2, 2, false),
];

// As many voters put the first before the second, and the second before the first.
const EACH: &[(u16, u16, u64, u64)] = &[(1, 2, 4, 5), (3, 1, 5, 4), (2, 3, 7, 2)];

#[tactic(auto, using(crate::proofs::RankedPairs::member_of_range))]
fn expect_each(rt: &impl Abort, election: &Election) {
    for (x, y, before, behind) in EACH {
        assert!(rt; 1 <= *x && *x <= election.alternatives());
        assert!(rt; 1 <= *y && *y <= election.alternatives() && *x != *y);
        assert!(rt;
            election.prefers_each(*x, *y) == (*before, *behind),
            "{x} and {y}"
        );
    }
}

#[test]
fn two_are_asked_about_at_once(rt: HostRuntime) -> Result<(), AllocError> {
    expect_each(&rt, &election_of(&rt, rt.alloc(), 3, LINES)?);
    expect_each(
        &rt,
        &Election::without_table(file_of(&rt, rt.alloc(), 3, LINES)?),
    );
    Ok(())
}

#[test]
fn pairs_of_three_alternatives(rt: HostRuntime) -> Result<(), AllocError> {
    let election = election_of(&rt, rt.alloc(), 3, LINES)?;
    assert!(rt; election.alternatives() == 3);
    assert!(rt; election.voters() == 9);
    for (x, y, weight, beats) in PAIRS {
        expect_pair(&rt, &election, *x, *y, *weight, *beats);
    }
    Ok(())
}

#[test]
fn pairs_without_a_table(rt: HostRuntime) -> Result<(), AllocError> {
    let election = Election::without_table(file_of(&rt, rt.alloc(), 3, LINES)?);
    assert!(rt; election.voters() == 9);
    for (x, y, weight, beats) in PAIRS {
        expect_pair(&rt, &election, *x, *y, *weight, *beats);
    }
    Ok(())
}

// Lines whose weights have no sum in 16 bits.
const HEAVY_LINES: &[(u64, &[u16])] = &[(70_000, &[1, 2]), (65_535, &[2, 1]), (5, &[2, 1])];

#[test]
fn pairs_of_heavy_lines(rt: HostRuntime) -> Result<(), AllocError> {
    let election = election_of(&rt, rt.alloc(), 2, HEAVY_LINES)?;
    expect_pair(&rt, &election, 1, 2, 70_000, true);
    expect_pair(&rt, &election, 2, 1, 65_540, false);
    Ok(())
}

// Alternatives, the given one first and the others in ascending order behind it.
fn order_led_by(alloc: Global, m: u16, first: u16) -> Result<Vec<u16>, AllocError> {
    let mut order = Vec::new(alloc);
    order.push(first)?;
    for x in 1..=m {
        if x != first {
            order.push(x)?;
        }
    }
    Ok(order)
}

// So many lines that a table is filled in two blocks of them. The last one isn't full.
const MANY: u16 = 130;

// Each alternative leads one line, of as many voters as its number, and so many voters are there in all.
const MANY_VOTERS: u64 = 8_515;

fn file_of_many(rt: &impl Abort, alloc: Global) -> Result<SocFile, AllocError> {
    let mut profile = Profile::new(alloc, MANY);
    for x in 1..=MANY {
        let order = order_led_by(alloc, MANY, x)?;
        add(rt, alloc, &mut profile, u64::from(x), order.as_slice())?;
    }
    Ok(SocFile::of(profile, Vec::new(alloc)))
}

// Of two alternatives all voters prefer the lower one, but for those whose line the other leads.
fn expect_below(rt: &impl Abort, election: &Election, y: u16) {
    let weight = u64::from(y);
    for x in 1..y {
        expect_pair(rt, election, x, y, MANY_VOTERS.saturating_sub(weight), true);
        expect_pair(rt, election, y, x, weight, false);
    }
}

fn expect_pairs_of_many(rt: &impl Abort, election: &Election) {
    assert!(rt; election.lines() == usize::from(MANY));
    assert!(rt; election.voters() == MANY_VOTERS);
    for y in 2..=MANY {
        expect_below(rt, election, y);
    }
}

#[test]
fn pairs_by_blocks_of_lines_and_without_a_table(rt: HostRuntime) -> Result<(), AllocError> {
    let file = file_of_many(&rt, rt.alloc())?;
    expect_pairs_of_many(&rt, &Election::of(rt.alloc(), file)?);
    let file = file_of_many(&rt, rt.alloc())?;
    expect_pairs_of_many(&rt, &Election::without_table(file));
    Ok(())
}

fn expect_line(rt: &impl Abort, election: &Election, i: usize, weight: u64, order: &[u16]) {
    let mut room = [0; NARROW];
    match election.line(i) {
        Some(line) => {
            assert!(rt;
                line.weight == weight && line.order.alternatives(&mut room) == order,
                "line {i}"
            );
        }
        None => panic!(rt; "no line {i}"),
    }
}

#[test]
fn lines_by_their_places(rt: HostRuntime) -> Result<(), AllocError> {
    let election = election_of(&rt, rt.alloc(), 3, LINES)?;
    assert!(rt; election.lines() == 3);
    for (i, (weight, order)) in LINES.iter().enumerate() {
        expect_line(&rt, &election, i, *weight, order);
    }
    assert!(rt; election.line(3).is_none());
    Ok(())
}

#[test]
fn first_places_of_three_alternatives(rt: HostRuntime) -> Result<(), AllocError> {
    let election = election_of(&rt, rt.alloc(), 3, LINES)?;
    expect_first(&rt, &election, &AltSet::all(3), &[4, 3, 2]);
    expect_first(&rt, &election, &AltSet::all(2), &[4, 5, 0]);
    expect_first(&rt, &election, &AltSet::empty(), &[0, 0, 0]);
    Ok(())
}

#[test]
fn as_many_voters_as_there_can_be(rt: HostRuntime) -> Result<(), AllocError> {
    let election = election_of(&rt, rt.alloc(), 2, &[(u64::MAX, &[1, 2])])?;
    assert!(rt; election.voters() == u64::MAX);
    expect_pair(&rt, &election, 1, 2, u64::MAX, true);
    expect_pair(&rt, &election, 2, 1, 0, false);
    expect_first(&rt, &election, &AltSet::all(2), &[u64::MAX, 0]);
    Ok(())
}

// A file without a line, in which the second of three alternatives has a name.
fn file_with_a_name(alloc: Global) -> Result<SocFile, AllocError> {
    let text = NameText::of(Vec::from_slice(alloc, b"Anna")?);
    let mut names = Vec::new(alloc);
    names.push(Name { number: 2, text })?;
    Ok(SocFile::of(Profile::new(alloc, 3), names))
}

#[test]
fn names_are_kept(rt: HostRuntime) -> Result<(), AllocError> {
    let election = Election::of(rt.alloc(), file_with_a_name(rt.alloc())?)?;
    assert!(rt; election.name(2) == Some(b"Anna"));
    assert!(rt; election.name(1).is_none());
    assert!(rt; election.voters() == 0);
    Ok(())
}
