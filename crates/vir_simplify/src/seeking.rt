// Finding the next step.
ghost use Rattle.std.specs.Prelude.{◌≡◌, ◌+◌, ◌-◌, ◌≤◌, ◌++◌, All, MatchOption};
ghost use Rattle.std.specs.ControlFlow.{MatchControlFlow};
ghost use Rattle.vir_term.specs.Tree.{tree, size};
ghost use Rattle.vir_term.specs.Limits.{size_limit};
ghost use Rattle.vir_simplify.specs.Equations.{Fits, shrinking};
ghost use Rattle.vir_simplify.specs.Places.{postorder};
ghost use Rattle.vir_simplify.specs.Steps.{IsFirst, IsNext, IsIrreducible};
ghost use Rattle.vir_simplify.specs.Workings.{IsSought, part_places};

use crate::equation::Equation;
use crate::step::Step;
use std::ops::ControlFlow;
use vir_term::Term;

// The equations that make a term smaller, in their order.
static SHRINKING: [Equation; 16] = [
    Equation::SeqDeferLeft,
    Equation::SeqDeferRight,
    Equation::SeqElect,
    Equation::SeqPlurality,
    Equation::SeqNobody,
    Equation::RevElect,
    Equation::RevRev,
    Equation::ParSame,
    Equation::ParElectLeft,
    Equation::ParElectRight,
    Equation::ParNobodyLeft,
    Equation::ParNobodyRight,
    Equation::LoopDefer,
    Equation::LoopLoop,
    Equation::UntilDefer,
    Equation::UntilUntil,
];

// Those equations.
fn shrinking() -> &'static [Equation]
    ensures { result.now ≡ shrinking }
{
    &SHRINKING
}

// The first of them that fits the whole term.
fn first_equation(term: &Term) -> Option<Equation>
    ensures { MatchOption result (All (λ e. Fits e (tree term.now) → ⊥) shrinking)
        (IsFirst (λ e. Fits e (tree term.now)) shrinking) }
{
    for equation in shrinking() {
        if equation.right_side(term).is_some() {
            return Some(*equation);
        }
    }
    None
}

// The step at the term itself, if an equation fits it; else `next` again.
fn seek_here(term: &Term, place: u32, next: u32) -> ControlFlow<Step, u32>
    ensures { MatchControlFlow result
        (λ after. (after ≡ next) × All (λ e. Fits e (tree term.now) → ⊥) shrinking)
        (λ step. (step.place ≡ place) × IsFirst (λ e. Fits e (tree term.now)) shrinking step.equation) }
{
    match first_equation(term) {
        Some(equation) => ControlFlow::Break(Step { place, equation }),
        None => ControlFlow::Continue(next),
    }
}

// The first step of a term that has this place; or, where there is none, the place behind the term.
#[cycle(seek)]
fn seek(term: &Term, place: u32) -> ControlFlow<Step, u32>
    requires { place + size (tree term.now) ≤ size_limit }
    ensures { IsSought (postorder place (tree term.now)) (place + size (tree term.now)) result }
{
    let next = seek_in_parts(term, place + 1)?;
    seek_here(term, place, next)
}

// The same of the parts of a term, of which the first one has this place.
#[cycle(seek)]
fn seek_in_parts(term: &Term, place: u32) -> ControlFlow<Step, u32>
    requires { place + size (tree term.now) ≤ size_limit + 1 }
    ensures { IsSought (part_places place (tree term.now)) (place + size (tree term.now) - 1) result }
{
    match term {
        Term::Leaf(_) => ControlFlow::Continue(place),
        Term::Rev(part) => seek(part, place),
        Term::Seq(first, second) | Term::Par(first, second) => seek_in_two(first, second, place),
        Term::Loop { body, .. } | Term::Until { body, .. } => seek(body, place),
    }
}

// The same of two terms.
#[cycle(seek)]
fn seek_in_two(first: &Term, second: &Term, place: u32) -> ControlFlow<Step, u32>
    requires { place + size (tree first.now) + size (tree second.now) ≤ size_limit }
    ensures { IsSought (postorder place (tree first.now) ++ postorder (place + size (tree first.now)) (tree second.now))
        (place + size (tree first.now) + size (tree second.now)) result }
{
    let next = seek(first, place)?;
    seek(second, next)
}

/// The next step of a term: at the first place, in postorder, where an equation that makes it smaller fits,
/// and by the first such equation. Places are numbered in preorder. It takes no memory.
pub fn next_step(term: &Term) -> Option<Step>
    requires { size (tree term.now) ≤ size_limit }
    ensures { MatchOption result (IsIrreducible (tree term.now)) (IsNext (tree term.now)) }
{
    match seek(term, 0) {
        ControlFlow::Break(step) => Some(step),
        ControlFlow::Continue(_) => None,
    }
}
