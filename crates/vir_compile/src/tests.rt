// A compiled rule and its listing, and the depths of rules.
use crate::{
    calls_left_are_exact, code_executes_on_restricted_ballots, code_executes_to_the_meaning,
    code_is_safe, compile, depth, jumps_stay_within, steps_left_are_exact,
};
use std::alloc::{AllocError, Global};
use vir_code::listing;
use vir_term::{Leaf, Score, Term};

fn boxed(alloc: Global, term: Term) -> Result<Box<Term>, AllocError> {
    Ok(Box::new(alloc, term)?)
}

fn in_turn(alloc: Global, first: Term, second: Term) -> Result<Term, AllocError> {
    let first = boxed(alloc, first)?;
    let second = boxed(alloc, second)?;
    Ok(Term::Seq(first, second))
}

fn beside(alloc: Global, first: Term, second: Term) -> Result<Term, AllocError> {
    let first = boxed(alloc, first)?;
    let second = boxed(alloc, second)?;
    Ok(Term::Par(first, second))
}

// Instant runoff: `seq(loop(1,min(plurality)),elect)`.
fn runoff(alloc: Global) -> Result<Term, AllocError> {
    let body = boxed(alloc, Term::Leaf(Leaf::Min(Score::Plurality)))?;
    in_turn(alloc, Term::Loop { k: 1, body }, Term::Leaf(Leaf::Elect))
}

const LISTING: &str = "0 start-loop
1 loop-test 1 4
2 call min(plurality)
3 loop-back 1
4 end-loop
5 keep-domain
6 fetch-domain
7 call elect
8 join-seq
";

#[test]
fn a_rule_is_compiled(rt: HostRuntime) -> Result<(), AllocError> {
    let term = runoff(rt.alloc())?;
    if term.within_limits() {
        let code = compile(rt.alloc(), &term)?;
        assert!(rt; code.len() == 9 && code.depth() == 2);
        let text = listing(rt.alloc(), &code)?;
        assert!(rt; text.as_slice() == LISTING.as_bytes());
    }
    Ok(())
}

// A term that holds the rule to its left, or to its right.
fn deeper(alloc: Global, to_the_right: bool) -> Result<Term, AllocError> {
    let rule = runoff(alloc)?;
    let module = Term::Leaf(Leaf::Plurality);
    if to_the_right {
        return beside(alloc, module, rule);
    }
    beside(alloc, rule, module)
}

// Which side holds the rule, and the depth.
const DEPTHS: &[(bool, usize)] = &[(false, 2), (true, 3)];

#[test]
fn kept_splits_count_for_the_depth(rt: HostRuntime) -> Result<(), AllocError> {
    for (to_the_right, deep) in DEPTHS {
        let term = deeper(rt.alloc(), *to_the_right)?;
        assert!(rt; term.nests_within(64) && depth(&term) == *deep);
        let part = boxed(rt.alloc(), term)?;
        let revised = Term::Rev(part);
        assert!(rt; revised.nests_within(64) && depth(&revised) == *deep);
    }
    Ok(())
}

#[test]
fn laws_are_functions(rt: HostRuntime) -> Result<(), AllocError> {
    code_executes_to_the_meaning();
    code_executes_on_restricted_ballots();
    code_is_safe();
    steps_left_are_exact();
    calls_left_are_exact();
    jumps_stay_within();
    let module = Term::Leaf(Leaf::Defer);
    assert!(rt; module.nests_within(1) && depth(&module) == 1);
    Ok(())
}
