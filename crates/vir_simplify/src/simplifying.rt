// Taking steps until there is none.
ghost use Rattle.std.specs.Prelude.{◌≤◌, IfOk};
ghost use Rattle.vir_term.specs.Tree.{tree, size, nesting};
ghost use Rattle.vir_term.specs.Limits.{size_limit, IsWithinLimits};
ghost use Rattle.vir_simplify.specs.Meanings.{MeanTheSame};
ghost use Rattle.vir_simplify.specs.Steps.{IsNext, Replays, Simplifies, Takes};

use crate::rewriting::rewrite_at;
use crate::seeking::next_step;
use crate::simplified::Simplified;
use crate::step::Step;
use crate::trace::Trace;
use std::alloc::{AllocError, Global};
use vir_term::Term;

/// The term that comes of taking the next step until there is none, with the steps. It has the same meaning,
/// and replaying the steps gives it.
pub fn simplify(alloc: Global, term: &Term) -> Result<Simplified, AllocError>
    requires { size (tree term.now) ≤ size_limit }
    ensures simple { IfOk result (λ found. Simplifies (tree term.now) found.trace (tree found.term)) }
    ensures meaning { IfOk result (λ found. MeanTheSame (tree term.now) (tree found.term)) }

    ensures replayed { IfOk result (λ found. IsWithinLimits (tree term.now)
        → Replays (tree term.now) found.trace (tree found.term)) }
    ensures limits { IfOk result (λ found. IsWithinLimits (tree term.now) → IsWithinLimits (tree found.term)) }
    ensures no_larger { IfOk result (λ found. size (tree found.term) ≤ size (tree term.now)) }
    ensures no_deeper { IfOk result (λ found. nesting (tree found.term) ≤ nesting (tree term.now)) }
{
    let mut current = term.copy(alloc)?;
    let mut list = Vec::new(alloc);
    while let Some(step) = next_step(&current) {
        current = next_term(alloc, &current, step)?;
        list.push(step)?;
    }
    Ok(Simplified {
        term: current,
        trace: Trace { list },
    })
}

// The term that the next step of a term makes of it.
fn next_term(alloc: Global, term: &Term, step: Step) -> Result<Term, AllocError>
    requires { IsNext (tree term.now) step }
    ensures { IfOk result (λ new. Takes step.equation step.place (tree term.now) (tree new)) }
{
    match rewrite_at(alloc, term, step.place, step.equation)? {
        Ok(new) => Ok(new),
        Err(_) => unreachable!(),
    }
}
