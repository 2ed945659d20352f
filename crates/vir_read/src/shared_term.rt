// Terms of which parts are shared. A name costs a few bytes wherever it stands, but the term that it stands for may be
// large: so a term that is read holds that of a name without a copy of it.
ghost use Rattle.std.specs.Prelude.{◌≡◌, ◌≤◌, ◌↔◌, IsTrue, IfOk};
ghost use Rattle.vir_term.specs.Tree as whole;
ghost use Rattle.vir_term.specs.Tree.{size, nesting};
ghost use Rattle.vir_term.specs.Limits.{size_limit};
ghost use Rattle.vir_read.specs.SharedTerms.{tree};

use std::alloc::{AllocError, Global};
use std::rc::Rc;
use vir_term::{Leaf, Term};

/// A voting rule whose parts may be parts of other rules too. It is composed as a `Term` is.
#[derive(Drop)]
pub enum SharedTerm {
    /// A rule that shares nothing.
    Whole(Term),
    Leaf(Rc<Leaf>),
    Rev(Rc<SharedTerm>),
    Seq(Rc<SharedTerm>, Rc<SharedTerm>),
    Par(Rc<SharedTerm>, Rc<SharedTerm>),
    Loop { k: u32, body: Rc<SharedTerm> },
    Until { k: u32, body: Rc<SharedTerm> },
}

impl SharedTerm {
    /// The same rule, whose parts are shared with this one.
    pub fn share(&self, alloc: Global) -> Result<SharedTerm, AllocError>
        ensures { IfOk result (λ term. tree term ≡ tree self.now) }
    {
        match self {
            SharedTerm::Whole(term) => Ok(SharedTerm::Whole(term.copy(alloc)?)),
            SharedTerm::Leaf(leaf) => Ok(SharedTerm::Leaf(leaf.clone()?)),
            SharedTerm::Rev(part) => Ok(SharedTerm::Rev(part.clone()?)),
            SharedTerm::Seq(first, second) => Ok(SharedTerm::Seq(first.clone()?, second.clone()?)),
            SharedTerm::Par(first, second) => Ok(SharedTerm::Par(first.clone()?, second.clone()?)),
            SharedTerm::Loop { k, body } => Ok(SharedTerm::Loop {
                k: *k,
                body: body.clone()?,
            }),
            SharedTerm::Until { k, body } => Ok(SharedTerm::Until {
                k: *k,
                body: body.clone()?,
            }),
        }
    }

    /// How many modules and compositions the rule has.
    pub fn size(&self) -> u32
        requires { size (tree self.now) ≤ size_limit }
        ensures { result ≡ size (tree self.now) }
    {
        match self {
            SharedTerm::Whole(term) => term.size(),
            SharedTerm::Leaf(_) => 1,
            SharedTerm::Rev(part) => 1 + part.size(),
            SharedTerm::Seq(first, second) | SharedTerm::Par(first, second) => {
                1 + first.size() + second.size()
            }
            SharedTerm::Loop { body, .. } | SharedTerm::Until { body, .. } => 1 + body.size(),
        }
    }

    /// Whether the rule is nested in at most so many levels.
    #[tactic(auto, using(vir_term::proofs::TreeLemmas::nesting_positive))]
    pub fn nests_within(&self, levels: u32) -> bool
        ensures { IsTrue result ↔ (nesting (tree self.now) ≤ levels) }
    {
        if levels == 0 {
            return false;
        }
        match self {
            SharedTerm::Whole(term) => term.nests_within(levels),
            SharedTerm::Leaf(_) => true,
            SharedTerm::Rev(part) => part.nests_within(levels - 1),
            SharedTerm::Seq(first, second) | SharedTerm::Par(first, second) => {
                first.nests_within(levels - 1) && second.nests_within(levels - 1)
            }
            SharedTerm::Loop { body, .. } | SharedTerm::Until { body, .. } => {
                body.nests_within(levels - 1)
            }
        }
    }

    /// The rule as a term of its own.
    pub fn to_term(&self, alloc: Global) -> Result<Term, AllocError>
        ensures { IfOk result (λ term. whole.tree term ≡ tree self.now) }
    {
        match self {
            SharedTerm::Whole(term) => term.copy(alloc),
            SharedTerm::Leaf(leaf) => Ok(Term::Leaf(leaf.copy(alloc)?)),
            SharedTerm::Rev(part) => Ok(Term::Rev(Box::new(alloc, part.to_term(alloc)?)?)),
            SharedTerm::Seq(first, second) => Ok(Term::Seq(
                Box::new(alloc, first.to_term(alloc)?)?,
                Box::new(alloc, second.to_term(alloc)?)?,
            )),
            SharedTerm::Par(first, second) => Ok(Term::Par(
                Box::new(alloc, first.to_term(alloc)?)?,
                Box::new(alloc, second.to_term(alloc)?)?,
            )),
            SharedTerm::Loop { k, body } => Ok(Term::Loop {
                k: *k,
                body: Box::new(alloc, body.to_term(alloc)?)?,
            }),
            SharedTerm::Until { k, body } => Ok(Term::Until {
                k: *k,
                body: Box::new(alloc, body.to_term(alloc)?)?,
            }),
        }
    }
}
