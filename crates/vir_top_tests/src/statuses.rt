// Statuses by hand: a bench that lacks a counter, what a run makes of a bench, and the delivery of a negative answer.
use crate::calls::{COUNT, DIVIDED, DRILL, ELECT, SECOND_WINS, full_shelf, owned};
use std::alloc::AllocError;
use vir_counter::{EliminatorCounter, FixedCounter, OrderCounter, PluralityCounter};
use vir_course::Answer;
use vir_machine::Bench;
use vir_outside::MemorySink;
use vir_score::KeptScore;
use vir_term::Score;
use vir_top::{deliver, virage};

// A module that no counter serves is named, and nothing is counted.
#[test]
fn an_unserved_module_is_named(rt: HostRuntime) -> Result<(), AllocError> {
    let alloc = rt.alloc();
    let mut bench = Bench::new(alloc);
    bench.push(Box::new(alloc, FixedCounter::new())?)?;
    let mut shelf = full_shelf(alloc, b"r = plurality;", DIVIDED)?;
    let mut out = MemorySink::new(alloc, 8);
    let mut err = MemorySink::new(alloc, 8);
    let words = owned(alloc, COUNT)?;
    let status = virage(alloc, &words, &mut shelf, &mut out, &mut err, &mut bench);
    assert!(rt; status == 8);
    assert!(rt; out.bytes().is_empty());
    assert!(rt; err.bytes() == b"no counter for plurality\n".as_slice());
    assert!(rt; bench.calls_of(0) == Some(0) && bench.runs() == 0);
    Ok(())
}

// Two turns eliminate by plurality, a third finds one alternative left, and that is elected.
#[test]
fn a_run_is_counted_where_it_asks(rt: HostRuntime) -> Result<(), AllocError> {
    let alloc = rt.alloc();
    let mut bench = Bench::new(alloc);
    bench.push(Box::new(alloc, FixedCounter::new())?)?;
    bench.push(Box::new(alloc, OrderCounter::new())?)?;
    bench.push(Box::new(alloc, PluralityCounter::new())?)?;
    for score in [Score::Plurality, Score::Borda] {
        let scoring = KeptScore::new(score);
        bench.push(Box::new(alloc, EliminatorCounter::new(scoring))?)?;
    }
    let rule = b"r = seq(loop(1,min(plurality)),elect);";
    let mut shelf = full_shelf(alloc, rule, DIVIDED)?;
    let mut out = MemorySink::new(alloc, 8);
    let mut err = MemorySink::new(alloc, 8);
    let words = owned(alloc, COUNT)?;
    let status = virage(alloc, &words, &mut shelf, &mut out, &mut err, &mut bench);
    assert!(rt; status == 0);
    assert!(rt; out.bytes() == SECOND_WINS);
    for (i, calls) in [(0, 1), (1, 0), (2, 0), (3, 2), (4, 0)] {
        assert!(rt; bench.calls_of(i) == Some(calls), "counter {i}");
    }
    assert!(rt; bench.runs() == 1);
    Ok(())
}

// All rules are asked for before the first of them is run.
#[test]
fn an_unserved_module_stops_a_drill(rt: HostRuntime) -> Result<(), AllocError> {
    let alloc = rt.alloc();
    let mut bench = Bench::new(alloc);
    bench.push(Box::new(alloc, FixedCounter::new())?)?;
    bench.push(Box::new(alloc, PluralityCounter::new())?)?;
    let mut shelf = full_shelf(alloc, ELECT, DIVIDED)?;
    let mut out = MemorySink::new(alloc, 8);
    let mut err = MemorySink::new(alloc, 8);
    let words = owned(alloc, DRILL)?;
    let status = virage(alloc, &words, &mut shelf, &mut out, &mut err, &mut bench);
    assert!(rt; status == 8);
    assert!(rt; out.bytes().is_empty());
    assert!(rt; err.bytes() == b"no counter for max(borda)\n".as_slice());
    assert!(rt; bench.calls_of(1) == Some(0) && bench.runs() == 0);
    Ok(())
}

// No command has a negative answer yet, so its delivery is called by itself.
#[test]
fn a_denial_has_a_status_of_its_own(rt: HostRuntime) -> Result<(), AllocError> {
    let denial = Answer::Denial(Vec::from_slice(rt.alloc(), b"none\n")?);
    let mut out = MemorySink::new(rt.alloc(), 8);
    let mut err = MemorySink::new(rt.alloc(), 8);
    assert!(rt; deliver(&mut out, &mut err, &Ok(denial)) == 1);
    assert!(rt; out.bytes() == b"none\n".as_slice());
    assert!(rt; err.bytes().is_empty());
    Ok(())
}
