// A positional counter in a box, in the place of the eliminators of plurality.
use crate::elections::election_of;
use std::alloc::{AllocError, Global};
use std::process::Abort;
use std::test::Fail;
use vir_compile::compile;
use vir_counter::{Counter, EliminatorCounter, FixedCounter, PositionalCounter};
use vir_machine::{Bench, Machine};
use vir_positional::{WeightForm, WeightRule};
use vir_profile::{AltSet, Split};
use vir_samples::DIVIDED;
use vir_score::KeptScore;
use vir_tables::Election;
use vir_term::{Leaf, Score, Term};

// `seq(loop(1,min(plurality)),elect)`
fn rounds(alloc: Global) -> Result<Term, AllocError> {
    let body = Box::new(alloc, Term::Leaf(Leaf::Min(Score::Plurality)))?;
    let first = Box::new(alloc, Term::Loop { k: 1, body })?;
    Ok(Term::Seq(first, Box::new(alloc, Term::Leaf(Leaf::Elect))?))
}

// Runs the rule over a counter and, behind it, one of the fixed modules: two calls of the first, and one
// of the other.
fn run_over(
    rt: &impl Abort,
    alloc: Global,
    bench: &mut Bench,
    election: &Election,
) -> Result<Split, Fail> {
    let rule = rounds(alloc)?;
    assert!(rt; rule.within_limits() && bench.serves_all(&rule));
    let code = compile(alloc, &rule)?;
    let mut machine = Machine::new(alloc, code.depth())?;
    let domain = AltSet::all(election.alternatives());
    let split = machine.run(&code, election, bench, &domain);
    assert!(rt; bench.calls_of(0) == Some(2) && bench.calls_of(1) == Some(1));
    Ok(split)
}

#[test]
fn rounds_by_weights_are_rounds_by_the_score(rt: HostRuntime) -> Result<(), Fail> {
    let alloc = rt.alloc();
    let election = election_of(alloc, DIVIDED)?;
    let by_weights = PositionalCounter::new(WeightRule::new(WeightForm::Plurality));
    let mut bench = Bench::new(alloc);
    bench.push(Box::new(alloc, by_weights)?)?;
    bench.push(Box::new(alloc, FixedCounter::new())?)?;
    let one = run_over(&rt, alloc, &mut bench, &election)?;
    let by_score = EliminatorCounter::new(KeptScore::new(Score::Plurality));
    let mut bench = Bench::new(alloc);
    bench.push(Box::new(alloc, by_score)?)?;
    bench.push(Box::new(alloc, FixedCounter::new())?)?;
    let other = run_over(&rt, alloc, &mut bench, &election)?;
    assert!(rt; one.elected.count() == 1 && one.elected.has(2));
    assert!(rt; one.elected.equals(&other.elected));
    assert!(rt; one.rejected.equals(&other.rejected));
    assert!(rt; one.deferred.equals(&other.deferred));
    Ok(())
}

// A rule of Borda's weights serves the eliminators of that score, and no others.
#[test]
fn a_counter_serves_its_score_alone(rt: HostRuntime) -> Result<(), Fail> {
    let counter = PositionalCounter::new(WeightRule::new(WeightForm::Borda));
    assert!(rt; counter.calls() == 0);
    assert!(rt; counter.serves(&Leaf::Upto(Score::Borda)));
    assert!(rt; !counter.serves(&Leaf::Min(Score::Plurality)));
    assert!(rt; !counter.serves(&Leaf::Plurality));
    Ok(())
}
