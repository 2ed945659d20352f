// The modules that terms are built of.
ghost use Rattle.std.specs.Prelude.{◌≡◌, ◌↔◌, IsTrue, IfOk};
ghost use Rattle.vir_term.specs.Kinds.{kind_of};
ghost use Rattle.vir_term.specs.Limits.{IsLeafInRange};
ghost use Rattle.vir_term.specs.Text.{leaf_text};

use crate::fixed_order::FixedOrder;
use crate::limits::is_count;
use crate::score::Score;
use crate::text::push_leaf;
use std::alloc::{AllocError, Global};

/// An electoral module that isn't composed: a leaf of a term. Each is handed a set of alternatives
/// and the ballots restricted to it.
#[derive(Debug, Drop)]
pub enum Leaf {
    /// Elects every alternative.
    Elect,
    /// Leaves every alternative undecided.
    Defer,
    /// Defers the first `k` alternatives in a fixed order, and rejects the others.
    PassFirst { k: u32, order: FixedOrder },
    /// Rejects the first `k` alternatives in a fixed order, and defers the others.
    DropFirst { k: u32, order: FixedOrder },
    /// Elects the alternatives that most voters put first, and rejects the others.
    Plurality,
    /// Rejects those below the greatest score.
    Max(Score),
    /// Rejects those with the least score, or nobody where these are all.
    Min(Score),
    /// Rejects those below the average score.
    Below(Score),
    /// Rejects those at most at the average score, or nobody where these are all.
    Upto(Score),
}

/// A module without its number and its fixed order.
#[derive(Clone, Copy, Debug, PartialEq, Eq)]
pub enum LeafKind {
    Elect,
    Defer,
    PassFirst,
    DropFirst,
    Plurality,
    Max(Score),
    Min(Score),
    Below(Score),
    Upto(Score),
}

impl Leaf {
    /// What kind of module it is.
    pub fn kind(&self) -> LeafKind
        ensures { result ≡ kind_of self.now }
    {
        match self {
            Leaf::Elect => LeafKind::Elect,
            Leaf::Defer => LeafKind::Defer,
            Leaf::PassFirst { .. } => LeafKind::PassFirst,
            Leaf::DropFirst { .. } => LeafKind::DropFirst,
            Leaf::Plurality => LeafKind::Plurality,
            Leaf::Max(score) => LeafKind::Max(*score),
            Leaf::Min(score) => LeafKind::Min(*score),
            Leaf::Below(score) => LeafKind::Below(*score),
            Leaf::Upto(score) => LeafKind::Upto(*score),
        }
    }

    /// The module's text in the rule language.
    pub fn print(&self, alloc: Global) -> Result<Vec<u8>, AllocError>
        ensures { IfOk result (λ text. text.items ≡ leaf_text self.now) }
    {
        let mut text = Vec::new(alloc);
        push_leaf(&mut text, self)?;
        Ok(text)
    }

    /// An equal module.
    pub fn copy(&self, alloc: Global) -> Result<Leaf, AllocError>
        ensures { IfOk result (λ leaf. leaf ≡ self.now) }
    {
        match self {
            Leaf::Elect => Ok(Leaf::Elect),
            Leaf::Defer => Ok(Leaf::Defer),
            Leaf::PassFirst { k, order } => {
                let order = order.copy(alloc)?;
                Ok(Leaf::PassFirst { k: *k, order })
            }
            Leaf::DropFirst { k, order } => {
                let order = order.copy(alloc)?;
                Ok(Leaf::DropFirst { k: *k, order })
            }
            Leaf::Plurality => Ok(Leaf::Plurality),
            Leaf::Max(score) => Ok(Leaf::Max(*score)),
            Leaf::Min(score) => Ok(Leaf::Min(*score)),
            Leaf::Below(score) => Ok(Leaf::Below(*score)),
            Leaf::Upto(score) => Ok(Leaf::Upto(*score)),
        }
    }

    // Whether the two modules are the same.
    pub(crate) fn equals(&self, other: &Leaf) -> bool
        ensures { IsTrue result ↔ (self.now ≡ other.now) }
    {
        match (self, other) {
            (Leaf::Elect, Leaf::Elect) => true,
            (Leaf::Defer, Leaf::Defer) => true,
            (Leaf::PassFirst { k, order }, Leaf::PassFirst { k: l, order: other }) => k == l
                && order.equals(other),
            (Leaf::DropFirst { k, order }, Leaf::DropFirst { k: l, order: other }) => k == l
                && order.equals(other),
            (Leaf::Plurality, Leaf::Plurality) => true,
            (Leaf::Max(score), Leaf::Max(other)) => score.equals(*other),
            (Leaf::Min(score), Leaf::Min(other)) => score.equals(*other),
            (Leaf::Below(score), Leaf::Below(other)) => score.equals(*other),
            (Leaf::Upto(score), Leaf::Upto(other)) => score.equals(*other),
            _ => false,
        }
    }

    /// Whether its number, if it has one, is within the limits. Its fixed order always is.
    pub fn in_range(&self) -> bool
        ensures { IsTrue result ↔ IsLeafInRange self.now }
    {
        match self {
            Leaf::PassFirst { k, order } | Leaf::DropFirst { k, order } => {
                let _faultless = order.len();
                is_count(*k)
            }
            _ => true,
        }
    }
}
