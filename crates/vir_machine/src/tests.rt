// A bench of boxed counters.
use crate::Bench;
use std::process::Abort;
use std::test::Fail;
use vir_counter::{EliminatorCounter, FixedCounter, PluralityCounter};
use vir_score::KeptScore;
use vir_term::{Leaf, Score, Term};

fn expect_unserved(rt: &impl Abort, bench: &Bench, term: &Term, unserved: bool) {
    assert!(rt; bench.serves_all(term) != unserved, "{term:?}");
    assert!(rt;
        bench.first_unserved(term).is_some() == unserved,
        "{term:?}"
    );
}

#[test]
fn terms_are_served_by_what_was_pushed(rt: HostRuntime) -> Result<(), Fail> {
    let alloc = rt.alloc();
    let mut bench = Bench::new(alloc);
    let left = Box::new(alloc, Term::Leaf(Leaf::Elect))?;
    let right = Box::new(alloc, Term::Leaf(Leaf::Max(Score::Borda)))?;
    let rule = Term::Seq(left, right);
    expect_unserved(&rt, &bench, &rule, true);
    bench.push(Box::new(alloc, FixedCounter::new())?)?;
    expect_unserved(&rt, &bench, &rule, true);
    let borda = EliminatorCounter::new(KeptScore::new(Score::Borda));
    bench.push(Box::new(alloc, borda)?)?;
    expect_unserved(&rt, &bench, &rule, false);
    bench.push(Box::new(alloc, PluralityCounter::new())?)?;
    assert!(rt; bench.len() == 3 && bench.runs() == 0);
    assert!(rt; bench.calls_of(2) == Some(0) && bench.calls_of(3).is_none());
    Ok(())
}
