// Rules that are compiled and run over a bench of boxed counters, on a small election.
use crate::{Bench, Machine};
use std::alloc::{AllocError, Global};
use std::process::Abort;
use std::test::Fail;
use vir_compile::compile;
use vir_counter::{EliminatorCounter, FixedCounter, OrderCounter, PluralityCounter};
use vir_mean::plain_result;
use vir_profile::{AltSet, Ballot, Entry, Profile, SocFile, Split};
use vir_score::KeptScore;
use vir_tables::Election;
use vir_term::{FixedOrder, Leaf, Score, Term};

// How many voters cast which order: 2 beats both others. 3 has fewest first places, and without 3
// alternative 1 has fewer than 2.
const VOTES: &[(u64, [u16; 3])] = &[(4, [1, 2, 3]), (3, [2, 3, 1]), (2, [3, 2, 1])];

const SCORES: [Score; 5] = [
    Score::Plurality,
    Score::Borda,
    Score::Copeland,
    Score::Minimax,
    Score::Condorcet,
];

#[derive(Clone, Copy, Debug)]
enum Rule {
    // seq(loop(1,min(plurality)),elect)
    InstantRunoff,
    // seq(max(copeland),elect)
    Copeland,
    // seq(loop(1,par(seq(pass(2),seq(rev(plurality),pass(1))),drop(2))),elect)
    SequentialMajority,
}

use Rule::{Copeland, InstantRunoff, SequentialMajority};

// A rule, and how often its run calls each counter: those of the fixed modules, of the orders and of
// plurality, and of each score.
const RULES: &[(Rule, [u64; 8])] = &[
    (InstantRunoff, [1, 0, 0, 2, 0, 0, 0, 0]),
    (Copeland, [1, 0, 0, 0, 0, 1, 0, 0]),
    (SequentialMajority, [1, 6, 2, 0, 0, 0, 0, 0]),
];

fn in_turn(alloc: Global, first: Term, second: Term) -> Result<Term, AllocError> {
    let first = Box::new(alloc, first)?;
    Ok(Term::Seq(first, Box::new(alloc, second)?))
}

fn until_one(alloc: Global, body: Term) -> Result<Term, AllocError> {
    let body = Box::new(alloc, body)?;
    Ok(Term::Loop { k: 1, body })
}

fn pass(alloc: Global, k: u32) -> Result<Term, Fail> {
    let order = FixedOrder::of(Vec::new(alloc))?;
    Ok(Term::Leaf(Leaf::PassFirst { k, order }))
}

fn drop_two(alloc: Global) -> Result<Term, Fail> {
    let order = FixedOrder::of(Vec::new(alloc))?;
    Ok(Term::Leaf(Leaf::DropFirst { k: 2, order }))
}

// One turn of the sequential majority rule: of the first two the one that wins, and the others.
fn majority_of_two(alloc: Global) -> Result<Term, Fail> {
    let winner = Term::Rev(Box::new(alloc, Term::Leaf(Leaf::Plurality))?);
    let one = in_turn(alloc, winner, pass(alloc, 1)?)?;
    let of_two = Box::new(alloc, in_turn(alloc, pass(alloc, 2)?, one)?)?;
    let others = Box::new(alloc, drop_two(alloc)?)?;
    Ok(Term::Par(of_two, others))
}

fn term_of(alloc: Global, rule: Rule) -> Result<Term, Fail> {
    let first = match rule {
        InstantRunoff => until_one(alloc, Term::Leaf(Leaf::Min(Score::Plurality)))?,
        Copeland => Term::Leaf(Leaf::Max(Score::Copeland)),
        SequentialMajority => until_one(alloc, majority_of_two(alloc)?)?,
    };
    Ok(in_turn(alloc, first, Term::Leaf(Leaf::Elect))?)
}

fn profile_of(alloc: Global, votes: &[(u64, [u16; 3])]) -> Result<Profile, Fail> {
    let mut profile = Profile::new(alloc, 3);
    for (weight, order) in votes {
        let order = Ballot::from_slice(alloc, order)?;
        let weight = *weight;
        profile
            .add(Entry { weight, order })
            .map_err(|refused| refused.fault)?;
    }
    Ok(profile)
}

// The number of calls of each counter.
fn calls_of(bench: &Bench) -> [u64; 8] {
    let mut calls = [0; 8];
    for i in 0..8 {
        calls[i] = bench.calls_of(i).unwrap_or(0);
    }
    calls
}

// What a run of the rule makes of all alternatives.
fn result_of(
    rt: &impl Abort,
    alloc: Global,
    term: &Term,
    election: &Election,
    bench: &mut Bench,
) -> Result<Split, AllocError> {
    assert!(rt; term.within_limits());
    assert!(rt; bench.serves_all(term));
    let code = compile(alloc, term)?;
    let mut machine = Machine::new(alloc, code.depth())?;
    Ok(machine.run(
        &code,
        election,
        bench,
        &AltSet::all(election.alternatives()),
    ))
}

fn same_split(one: &Split, other: &Split) -> bool {
    one.elected.equals(&other.elected)
        && one.rejected.equals(&other.rejected)
        && one.deferred.equals(&other.deferred)
}

// Each rule elects 2 alone, as its meaning does, and its run is counted and calls these counters.
fn expect_runs(
    rt: &impl Abort,
    alloc: Global,
    bench: &mut Bench,
    rules: &[(Rule, [u64; 8])],
) -> Result<(), Fail> {
    let profile = profile_of(alloc, VOTES)?;
    let file = SocFile::of(profile_of(alloc, VOTES)?, Vec::new(alloc));
    let election = Election::of(alloc, file)?;
    let all = AltSet::all(3);
    for (rule, rises) in rules {
        let term = term_of(alloc, *rule)?;
        let runs = bench.runs();
        let before = calls_of(bench);
        let split = result_of(rt, alloc, &term, &election, bench)?;
        let after = calls_of(bench);
        assert!(rt;
            split.elected.has(2) && split.elected.count() == 1,
            "{rule:?}"
        );
        let plain = plain_result(alloc, &term, &profile, &all)?;
        assert!(rt; same_split(&split, &plain), "{rule:?}");
        assert!(rt; bench.runs() == runs.saturating_add(1), "{rule:?}");
        for i in 0..8usize {
            assert!(rt;
                after[i].saturating_sub(before[i]) == rises[i],
                "{rule:?}: counter {i}"
            );
        }
    }
    Ok(())
}

#[test]
fn rules_run_to_their_meaning(rt: HostRuntime) -> Result<(), Fail> {
    let alloc = rt.alloc();
    let mut bench = Bench::new(alloc);
    bench.push(Box::new(alloc, FixedCounter::new())?)?;
    bench.push(Box::new(alloc, OrderCounter::new())?)?;
    bench.push(Box::new(alloc, PluralityCounter::new())?)?;
    for score in &SCORES {
        let counter = EliminatorCounter::new(KeptScore::new(*score));
        bench.push(Box::new(alloc, counter)?)?;
    }
    assert!(rt; bench.runs() == 0);
    expect_runs(&rt, alloc, &mut bench, RULES)
}

#[test]
fn a_module_that_nothing_serves_is_told(rt: HostRuntime) -> Result<(), Fail> {
    let alloc = rt.alloc();
    let mut bench = Bench::new(alloc);
    bench.push(Box::new(alloc, FixedCounter::new())?)?;
    bench.push(Box::new(alloc, OrderCounter::new())?)?;
    let term = term_of(alloc, SequentialMajority)?;
    assert!(rt; !bench.serves_all(&term));
    assert!(rt; matches!(bench.first_unserved(&term), Some(Leaf::Plurality)));
    Ok(())
}
