// Terms, and what is asked of them.
ghost use Rattle.std.specs.Prelude.{◌≡◌, ◌+◌, ◌≤◌, ◌↔◌, IsTrue, IsSome, IfSome, IfOk};
ghost use Rattle.vir_term.specs.Tree.{tree, size, nesting};
ghost use Rattle.vir_term.specs.Limits.{size_limit, IsInRange, IsWithinLimits};
ghost use Rattle.vir_term.specs.Text.{term_text};

use crate::leaf::Leaf;
use crate::limits::{NESTING_LIMIT, SIZE_LIMIT, is_count};
use crate::text::push_term;
use std::alloc::{AllocError, Global};

/// A voting rule: a module, or a composition of rules.
#[derive(Debug, Drop)]
pub enum Term {
    /// A module.
    Leaf(Leaf),
    /// Revision: what the rule elects is deferred, and the others are rejected.
    Rev(Box<Term>),
    /// Sequential composition: the second rule decides on what the first one defers.
    Seq(Box<Term>, Box<Term>),
    /// Parallel composition: both rules decide on the same alternatives, and of what they say of each
    /// the greatest counts, where electing is above deferring, and deferring above rejecting.
    Par(Box<Term>, Box<Term>),
    /// Loop composition: the rule decides again and again on what it defers, until that is `k`
    /// alternatives, or all that it was handed.
    Loop { k: u32, body: Box<Term> },
    /// The same, until that is at most `k` alternatives, or all that it was handed.
    Until { k: u32, body: Box<Term> },
}

impl Term {
    /// How many modules and compositions the term has.
    pub fn size(&self) -> u32
        requires { size (tree self.now) ≤ size_limit }
        ensures { result ≡ size (tree self.now) }
    {
        match self {
            Term::Leaf(_) => 1,
            Term::Rev(part) => 1 + part.size(),
            Term::Seq(first, second) | Term::Par(first, second) => 1 + first.size() + second.size(),
            Term::Loop { body, .. } | Term::Until { body, .. } => 1 + body.size(),
        }
    }

    /// Whether the term is within the limits: those of size and nesting, and those of the numbers that
    /// it names. It asks for nothing of the term.
    pub fn within_limits(&self) -> bool
        ensures { IsTrue result ↔ IsWithinLimits (tree self.now) }
    {
        self.room_left(SIZE_LIMIT, NESTING_LIMIT).is_some()
    }

    // What the term leaves of a room for so many modules and compositions, where it fits, is nested in
    // at most so many levels, and its numbers are in range.
    #[tactic(auto, using(crate::proofs::TreeLemmas::size_positive, crate::proofs::TreeLemmas::nesting_positive))]
    fn room_left(&self, room: u32, levels: u32) -> Option<u32>
        ensures fits { (size (tree self.now) ≤ room) × (nesting (tree self.now) ≤ levels) × IsInRange (tree self.now)
            → IsSome result }
        ensures left { IfSome result (λ left. (left + size (tree self.now) ≡ room) × (nesting (tree self.now) ≤ levels)
            × IsInRange (tree self.now)) }
    {
        if room == 0 || levels == 0 {
            return None;
        }
        match self {
            Term::Leaf(leaf) => leaf.in_range().then_some(room - 1),
            Term::Rev(part) => part.room_left(room - 1, levels - 1),
            Term::Seq(first, second) | Term::Par(first, second) => {
                let room = first.room_left(room - 1, levels - 1)?;
                second.room_left(room, levels - 1)
            }
            Term::Loop { k, body } | Term::Until { k, body } => {
                if is_count(*k) {
                    body.room_left(room - 1, levels - 1)
                } else {
                    None
                }
            }
        }
    }

    /// Whether the term is nested in at most so many levels.
    #[tactic(auto, using(crate::proofs::TreeLemmas::nesting_positive))]
    pub fn nests_within(&self, levels: u32) -> bool
        ensures { IsTrue result ↔ (nesting (tree self.now) ≤ levels) }
    {
        if levels == 0 {
            return false;
        }
        match self {
            Term::Leaf(_) => true,
            Term::Rev(part) => part.nests_within(levels - 1),
            Term::Seq(first, second) | Term::Par(first, second) => {
                first.nests_within(levels - 1) && second.nests_within(levels - 1)
            }
            Term::Loop { body, .. } | Term::Until { body, .. } => body.nests_within(levels - 1),
        }
    }

    /// Whether the two terms are the same: of the same modules, composed in the same way.
    pub fn equals(&self, other: &Term) -> bool
        ensures { IsTrue result ↔ (tree self.now ≡ tree other.now) }
    {
        match (self, other) {
            (Term::Leaf(leaf), Term::Leaf(other)) => leaf.equals(other),
            (Term::Rev(part), Term::Rev(other)) => part.equals(other),
            (Term::Seq(first, second), Term::Seq(other, next)) => first.equals(other)
                && second.equals(next),
            (Term::Par(first, second), Term::Par(other, next)) => first.equals(other)
                && second.equals(next),
            (Term::Loop { k, body }, Term::Loop { k: l, body: other }) => k == l
                && body.equals(other),
            (Term::Until { k, body }, Term::Until { k: l, body: other }) => k == l
                && body.equals(other),
            _ => false,
        }
    }

    /// The term's text in the rule language, without spaces.
    pub fn print(&self, alloc: Global) -> Result<Vec<u8>, AllocError>
        ensures { IfOk result (λ text. text.items ≡ term_text (tree self.now)) }
    {
        let mut text = Vec::new(alloc);
        push_term(&mut text, self)?;
        Ok(text)
    }

    /// An equal term.
    pub fn copy(&self, alloc: Global) -> Result<Term, AllocError>
        ensures { IfOk result (λ term. tree term ≡ tree self.now) }
    {
        match self {
            Term::Leaf(leaf) => Ok(Term::Leaf(leaf.copy(alloc)?)),
            Term::Rev(part) => Ok(Term::Rev(Box::new(alloc, part.copy(alloc)?)?)),
            Term::Seq(first, second) => Ok(Term::Seq(
                Box::new(alloc, first.copy(alloc)?)?,
                Box::new(alloc, second.copy(alloc)?)?,
            )),
            Term::Par(first, second) => Ok(Term::Par(
                Box::new(alloc, first.copy(alloc)?)?,
                Box::new(alloc, second.copy(alloc)?)?,
            )),
            Term::Loop { k, body } => Ok(Term::Loop {
                k: *k,
                body: Box::new(alloc, body.copy(alloc)?)?,
            }),
            Term::Until { k, body } => Ok(Term::Until {
                k: *k,
                body: Box::new(alloc, body.copy(alloc)?)?,
            }),
        }
    }
}
