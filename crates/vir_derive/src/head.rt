// The heads of terms, and whether terms are derivably disjoint.
ghost use Rattle.std.specs.Prelude.{◌≡◌, ◌↔◌, IsTrue, option_map};
ghost use Rattle.vir_term.specs.Tree.{tree};
ghost use Rattle.vir_rules.specs.Claims.{disj};
ghost use Rattle.vir_rules.specs.Derivations.{Derivable};
ghost use Rattle.vir_derive.specs.Heads.{head, opposed, are_opposed};

use vir_term::{Leaf, Term};

// The term's head: the `pass` or `drop` that is reached in the first part of each sequence and the body of
// each revision.
fn head(term: &Term) -> Option<&Leaf>
    ensures { option_map (λ leaf. leaf.now) result ≡ head (tree term.now) }
{
    match term {
        Term::Leaf(leaf) => match leaf {
            Leaf::PassFirst { .. } | Leaf::DropFirst { .. } => Some(leaf),
            _ => None,
        },
        Term::Rev(part) => head(part),
        Term::Seq(first, _) => head(first),
        Term::Par(_, _) | Term::Loop { .. } | Term::Until { .. } => None,
    }
}

// Whether one is a `pass` and the other a `drop`, of one number and one fixed order.
fn opposed(left: &Leaf, right: &Leaf) -> bool
    ensures { result ≡ opposed (Some left.now) (Some right.now) }
{
    match (left, right) {
        (Leaf::PassFirst { k, order }, Leaf::DropFirst { k: j, order: other })
        | (Leaf::DropFirst { k, order }, Leaf::PassFirst { k: j, order: other }) => *k == *j
            && order.equals(other),
        _ => false,
    }
}

/// Whether the heads of the two terms are opposed, where a term's head is the `pass` or `drop` that is
/// reached in the first part of each sequence and the body of each revision. It is so just where the two
/// terms are derivably disjoint.
pub fn are_opposed(left: &Term, right: &Term) -> bool
    ensures opposed { result ≡ are_opposed (tree left.now) (tree right.now) }
    ensures disjoint { IsTrue result ↔ Derivable (disj (tree left.now) (tree right.now)) }
{
    let (Some(left), Some(right)) = (head(left), head(right)) else {
        return false;
    };
    opposed(left, right)
}
