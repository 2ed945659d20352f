// Taking steps: an equation applied at a place of a term.
ghost use Rattle.std.specs.Prelude.{◌≡◌, ◌≤◌, IfOk, MatchResult, MatchOption};
ghost use Rattle.vir_term.specs.Tree.{Tree, tree, seq};
ghost use Rattle.vir_term.specs.Limits.{IsWithinLimits};
ghost use Rattle.vir_simplify.specs.Steps.{Takes};
ghost use Rattle.vir_simplify.specs.Workings.{IsMissed, TakesTwo, IsMissedTwo};

use crate::equation::Equation;
use crate::step::Step;
use std::alloc::{AllocError, Global};
use vir_term::Term;

// Why an equation can't be applied at a place of a term.
#[derive(Clone, Copy)]
pub(crate) enum Missed {
    // It doesn't fit there.
    Unfit,
    // The place is this many places behind the last one of the term: 0 is the next one.
    Behind(u32),
}

// What an equation makes of a whole term.
fn rewrite(
    alloc: Global,
    term: &Term,
    equation: Equation,
) -> Result<Result<Term, Missed>, AllocError>
    ensures { IfOk result (λ answer. MatchResult answer (λ new. Takes equation 0 (tree term.now) (tree new))
        (IsMissed equation 0 (tree term.now))) }
{
    match equation.right_side(term) {
        Some(right) => Ok(Ok(right.term(alloc)?)),
        None => Ok(Err(Missed::Unfit)),
    }
}

// What an equation makes of a term, applied at a place.
#[cycle(rewrite)]
pub(crate) fn rewrite_at(
    alloc: Global,
    term: &Term,
    place: u32,
    equation: Equation,
) -> Result<Result<Term, Missed>, AllocError>
    ensures { IfOk result (λ answer. MatchResult answer (λ new. Takes equation place (tree term.now) (tree new))
        (IsMissed equation place (tree term.now))) }
{
    if place == 0 {
        rewrite(alloc, term, equation)
    } else {
        rewrite_within(alloc, term, place, equation)
    }
}

// The same, where the place isn't the term's own.
#[cycle(rewrite)]
fn rewrite_within(
    alloc: Global,
    term: &Term,
    place: u32,
    equation: Equation,
) -> Result<Result<Term, Missed>, AllocError>
    requires { 1 ≤ place }
    ensures { IfOk result (λ answer. MatchResult answer (λ new. Takes equation place (tree term.now) (tree new))
        (IsMissed equation place (tree term.now))) }
{
    match term {
        Term::Leaf(_) => Ok(Err(Missed::Behind(place - 1))),
        Term::Rev(part) => match rewrite_part(alloc, part, place - 1, equation)? {
            Ok(part) => Ok(Ok(Term::Rev(part))),
            Err(missed) => Ok(Err(missed)),
        },
        Term::Seq(first, second) => match rewrite_two(alloc, first, second, place, equation)? {
            Ok((first, second)) => Ok(Ok(Term::Seq(first, second))),
            Err(missed) => Ok(Err(missed)),
        },
        Term::Par(first, second) => match rewrite_two(alloc, first, second, place, equation)? {
            Ok((first, second)) => Ok(Ok(Term::Par(first, second))),
            Err(missed) => Ok(Err(missed)),
        },
        Term::Loop { k, body } => match rewrite_part(alloc, body, place - 1, equation)? {
            Ok(body) => Ok(Ok(Term::Loop { k: *k, body })),
            Err(missed) => Ok(Err(missed)),
        },
        Term::Until { k, body } => match rewrite_part(alloc, body, place - 1, equation)? {
            Ok(body) => Ok(Ok(Term::Until { k: *k, body })),
            Err(missed) => Ok(Err(missed)),
        },
    }
}

// What it makes of the only part of a term, applied at a place of that part.
#[cycle(rewrite)]
fn rewrite_part(
    alloc: Global,
    part: &Term,
    place: u32,
    equation: Equation,
) -> Result<Result<Box<Term>, Missed>, AllocError>
    ensures { IfOk result (λ answer. MatchResult answer
        (λ new. Takes equation place (tree part.now) (tree new.value))
        (IsMissed equation place (tree part.now))) }
{
    match rewrite_at(alloc, part, place, equation)? {
        Ok(new) => Ok(Ok(Box::new(alloc, new)?)),
        Err(missed) => Ok(Err(missed)),
    }
}

// What it makes of the two parts of a term, applied at a place of the term that isn't the term's own.
#[cycle(rewrite)]
fn rewrite_two(
    alloc: Global,
    first: &Term,
    second: &Term,
    place: u32,
    equation: Equation,
) -> Result<Result<(Box<Term>, Box<Term>), Missed>, AllocError>
    requires { 1 ≤ place }
    ensures { IfOk result (λ answer. MatchResult answer
        (λ new. TakesTwo equation place (tree first.now) (tree second.now) (tree new.0.value) (tree new.1.value))
        (IsMissedTwo equation place (tree first.now) (tree second.now))) }
{
    match rewrite_at(alloc, first, place - 1, equation)? {
        Ok(new) => {
            let second = second.copy(alloc)?;
            Ok(Ok((Box::new(alloc, new)?, Box::new(alloc, second)?)))
        }
        Err(Missed::Unfit) => Ok(Err(Missed::Unfit)),
        Err(Missed::Behind(place)) => match rewrite_at(alloc, second, place, equation)? {
            Ok(new) => {
                let first = first.copy(alloc)?;
                Ok(Ok((Box::new(alloc, first)?, Box::new(alloc, new)?)))
            }
            Err(missed) => Ok(Err(missed)),
        },
    }
}

// The term that a step makes of a term, where that is within the limits.
pub(crate) fn taken(alloc: Global, term: &Term, step: Step) -> Result<Option<Term>, AllocError>
    ensures { IfOk result (λ found. MatchOption found
        ((other : Tree) → Takes step.equation step.place (tree term.now) other → IsWithinLimits other → ⊥)
        (λ new. Takes step.equation step.place (tree term.now) (tree new) × IsWithinLimits (tree new))) }
{
    match rewrite_at(alloc, term, step.place, step.equation)? {
        Ok(new) => Ok(new.within_limits().then_some(new)),
        Err(_) => Ok(None),
    }
}
