// What equations make of terms.
ghost use Rattle.std.specs.Prelude.{◌≡◌, ◌↔◌, IsTrue, true, false, None, MatchOption, IfOk};
ghost use Rattle.vir_term.specs.Tree.{Tree, tree, rev, seq, par, loop, exactly, at_most};
ghost use Rattle.vir_simplify.specs.Equations.{elect, defer, plurality, nobody, Fits, Rewrites};
ghost use Rattle.vir_simplify.specs.Workings.{right_tree};

use crate::equation::Equation;
use std::alloc::{AllocError, Global};
use vir_term::{Leaf, Term};

// The right side of an equation, made of parts of a term that is its left side.
#[derive(Clone, Copy)]
pub(crate) enum RightSide<'a> {
    // A part.
    Part(&'a Term),
    // `defer`.
    DeferAll,
    // `rev(defer)`.
    RejectAll,
    // `seq(m,seq(n,t))`.
    ToTheRight(&'a Term, &'a Term, &'a Term),
    // `seq(seq(m,n),t)`.
    ToTheLeft(&'a Term, &'a Term, &'a Term),
}

impl<'a> RightSide<'a> {
    // The right side as a term of its own.
    pub(crate) fn term(self, alloc: Global) -> Result<Term, AllocError>
        ensures { IfOk result (λ term. tree term ≡ right_tree self.entry) }
    {
        match self {
            RightSide::Part(part) => part.copy(alloc),
            RightSide::DeferAll => Ok(Term::Leaf(Leaf::Defer)),
            RightSide::RejectAll => Ok(Term::Rev(Box::new(alloc, Term::Leaf(Leaf::Defer))?)),
            RightSide::ToTheRight(m, n, t) => {
                let rest = in_sequence(alloc, n, t)?;
                Ok(Term::Seq(Box::new(alloc, m.copy(alloc)?)?, Box::new(alloc, rest)?))
            }
            RightSide::ToTheLeft(m, n, t) => {
                let start = in_sequence(alloc, m, n)?;
                Ok(Term::Seq(Box::new(alloc, start)?, Box::new(alloc, t.copy(alloc)?)?))
            }
        }
    }
}

// The sequential composition of two terms.
fn in_sequence(alloc: Global, first: &Term, second: &Term) -> Result<Term, AllocError>
    ensures { IfOk result (λ term. tree term ≡ seq (tree first.now) (tree second.now)) }
{
    let first = Box::new(alloc, first.copy(alloc)?)?;
    let second = Box::new(alloc, second.copy(alloc)?)?;
    Ok(Term::Seq(first, second))
}

fn is_elect(term: &Term) -> bool
    ensures { IsTrue result ↔ (tree term.now ≡ elect) }
{
    matches!(term, Term::Leaf(Leaf::Elect))
}

fn is_defer(term: &Term) -> bool
    ensures { IsTrue result ↔ (tree term.now ≡ defer) }
{
    matches!(term, Term::Leaf(Leaf::Defer))
}

fn is_plurality(term: &Term) -> bool
    ensures { IsTrue result ↔ (tree term.now ≡ plurality) }
{
    matches!(term, Term::Leaf(Leaf::Plurality))
}

// Whether the term is `rev(defer)`.
fn is_nobody(term: &Term) -> bool
    ensures { IsTrue result ↔ (tree term.now ≡ nobody) }
{
    match term {
        Term::Rev(part) => is_defer(part),
        _ => false,
    }
}

fn is_rev(term: &Term) -> bool
    ensures { IsTrue result ↔ ((m : Tree) × (tree term.now ≡ rev m)) }
{
    matches!(term, Term::Rev(_))
}

// Whether the term is a loop that ends at just this number of alternatives.
fn is_loop(term: &Term, k: u32) -> bool
    ensures { IsTrue result ↔ ((m : Tree) × (tree term.now ≡ loop (exactly k) m)) }
{
    match term {
        Term::Loop { k: number, .. } => *number == k,
        _ => false,
    }
}

// Whether the term is a loop that ends at this number of alternatives or fewer.
fn is_until(term: &Term, k: u32) -> bool
    ensures { IsTrue result ↔ ((m : Tree) × (tree term.now ≡ loop (at_most k) m)) }
{
    match term {
        Term::Until { k: number, .. } => *number == k,
        _ => false,
    }
}

impl Equation {
    // The right side, where the term is the equation's left side.
    pub(crate) fn right_side<'a>(self, term: &'a Term) -> Option<RightSide<'a>>
        ensures { MatchOption result (Fits self (tree term.now) → ⊥)
            (λ right. Rewrites self (tree term.now) (right_tree right)) }
    {
        match term {
            Term::Leaf(_) => None,
            Term::Rev(part) => self.right_of_rev(part),
            Term::Seq(first, second) => self.right_of_seq(first, second),
            Term::Par(first, second) => self.right_of_par(first, second),
            Term::Loop { k, body } => self.right_of_loop(*k, body),
            Term::Until { k, body } => self.right_of_until(*k, body),
        }
    }

    // The same, where the term is the revision of this one.
    #[tactic(auto, using(crate::proofs::FittingEquations::rev_elect))]
    fn right_of_rev<'a>(self, part: &'a Term) -> Option<RightSide<'a>>
        ensures { MatchOption result (Fits self (rev (tree part.now)) → ⊥)
            (λ right. Rewrites self (rev (tree part.now)) (right_tree right)) }
    {
        match self {
            Equation::RevElect if is_elect(part) => Some(RightSide::DeferAll),
            Equation::RevRev if is_rev(part) => Some(RightSide::RejectAll),
            _ => None,
        }
    }

    // The same, where the term is the sequential composition of these two.
    #[tactic(auto, using(crate::proofs::FittingEquations::fitting_sequences))]
    fn right_of_seq<'a>(self, first: &'a Term, second: &'a Term) -> Option<RightSide<'a>>
        ensures { MatchOption result (Fits self (seq (tree first.now) (tree second.now)) → ⊥)
            (λ right. Rewrites self (seq (tree first.now) (tree second.now)) (right_tree right)) }
    {
        match self {
            Equation::SeqDeferLeft if is_defer(first) => Some(RightSide::Part(second)),
            Equation::SeqDeferRight if is_defer(second) => Some(RightSide::Part(first)),
            Equation::SeqElect if is_elect(first) => Some(RightSide::Part(first)),
            Equation::SeqPlurality if is_plurality(first) => Some(RightSide::Part(first)),
            Equation::SeqNobody if is_nobody(first) => Some(RightSide::Part(first)),
            Equation::SeqAssocRight => to_the_right(first, second),
            Equation::SeqAssocLeft => to_the_left(first, second),
            _ => None,
        }
    }

    // The same, where the term is the parallel composition of these two.
    #[tactic(auto, using(crate::proofs::FittingEquations::fitting_parallels))]
    fn right_of_par<'a>(self, first: &'a Term, second: &'a Term) -> Option<RightSide<'a>>
        ensures { MatchOption result (Fits self (par (tree first.now) (tree second.now)) → ⊥)
            (λ right. Rewrites self (par (tree first.now) (tree second.now)) (right_tree right)) }
    {
        match self {
            Equation::ParSame if first.equals(second) => Some(RightSide::Part(first)),
            Equation::ParElectLeft if is_elect(first) => Some(RightSide::Part(first)),
            Equation::ParElectRight if is_elect(second) => Some(RightSide::Part(second)),
            Equation::ParNobodyLeft if is_nobody(first) => Some(RightSide::Part(second)),
            Equation::ParNobodyRight if is_nobody(second) => Some(RightSide::Part(first)),
            _ => None,
        }
    }

    // The same, where the term is a loop over this one that ends at just k alternatives.
    #[tactic(auto, using(crate::proofs::FittingEquations::loop_defer))]
    fn right_of_loop<'a>(self, k: u32, body: &'a Term) -> Option<RightSide<'a>>
        ensures { MatchOption result (Fits self (loop (exactly k) (tree body.now)) → ⊥)
            (λ right. Rewrites self (loop (exactly k) (tree body.now)) (right_tree right)) }
    {
        match self {
            Equation::LoopDefer if is_defer(body) => Some(RightSide::Part(body)),
            Equation::LoopLoop if is_loop(body, k) => Some(RightSide::Part(body)),
            _ => None,
        }
    }

    // The same, where the term is a loop over this one that ends at k alternatives or fewer.
    #[tactic(auto, using(crate::proofs::FittingEquations::until_defer))]
    fn right_of_until<'a>(self, k: u32, body: &'a Term) -> Option<RightSide<'a>>
        ensures { MatchOption result (Fits self (loop (at_most k) (tree body.now)) → ⊥)
            (λ right. Rewrites self (loop (at_most k) (tree body.now)) (right_tree right)) }
    {
        match self {
            Equation::UntilDefer if is_defer(body) => Some(RightSide::Part(body)),
            Equation::UntilUntil if is_until(body, k) => Some(RightSide::Part(body)),
            _ => None,
        }
    }
}

// The right side of the equation that moves the parts of a sequence to the right.
fn to_the_right<'a>(first: &'a Term, second: &'a Term) -> Option<RightSide<'a>>
    ensures { MatchOption result (Fits Equation.SeqAssocRight (seq (tree first.now) (tree second.now)) → ⊥)
        (λ right. Rewrites Equation.SeqAssocRight (seq (tree first.now) (tree second.now)) (right_tree right)) }
{
    match first {
        Term::Seq(m, n) => Some(RightSide::ToTheRight(m, n, second)),
        _ => None,
    }
}

// The right side of the one that moves them to the left.
fn to_the_left<'a>(first: &'a Term, second: &'a Term) -> Option<RightSide<'a>>
    ensures { MatchOption result (Fits Equation.SeqAssocLeft (seq (tree first.now) (tree second.now)) → ⊥)
        (λ right. Rewrites Equation.SeqAssocLeft (seq (tree first.now) (tree second.now)) (right_tree right)) }
{
    match second {
        Term::Seq(n, t) => Some(RightSide::ToTheLeft(first, n, t)),
        _ => None,
    }
}
