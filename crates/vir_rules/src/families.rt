// Which modules the families are of.
ghost use Rattle.std.specs.Prelude.{◌≡◌};
ghost use Rattle.vir_rules.specs.Families.{is_of, is_eliminator};

use crate::row::Family;
use vir_term::{LeafKind, Score};

impl Family {
    // Whether a module of this kind is of the family.
    pub(crate) fn has(self, kind: LeafKind) -> bool
        ensures { result ≡ is_of self kind }
    {
        match self {
            Family::ElectingNobody => !matches!(kind, LeafKind::Elect | LeafKind::Plurality),
            Family::ElectingAll => matches!(kind, LeafKind::Elect),
            Family::ElectingSome => matches!(kind, LeafKind::Elect | LeafKind::Plurality),
            Family::KeepingSome => {
                matches!(kind, LeafKind::Defer | LeafKind::PassFirst) || is_eliminator(kind)
            }
            Family::Dropping => matches!(kind, LeafKind::DropFirst),
            Family::Unscored => !is_eliminator(kind),
            Family::Leading => matches!(kind, LeafKind::Max(score) if score != Score::Minimax),
            Family::Eliminating => is_eliminator(kind),
            Family::Winning => matches!(
                kind,
                LeafKind::Max(Score::Copeland | Score::Minimax | Score::Condorcet)
            ),
            Family::Progressing => matches!(
                kind,
                LeafKind::Min(score) | LeafKind::Below(score) | LeafKind::Upto(score)
                    if score != Score::Plurality
            ),
            Family::Deferring => matches!(kind, LeafKind::Defer),
            Family::Unordered => !matches!(kind, LeafKind::PassFirst | LeafKind::DropFirst),
        }
    }
}

// Whether a module of this kind eliminates by a score.
fn is_eliminator(kind: LeafKind) -> bool
    ensures { result ≡ is_eliminator kind }
{
    matches!(
        kind,
        LeafKind::Max(_) | LeafKind::Min(_) | LeafKind::Below(_) | LeafKind::Upto(_)
    )
}
