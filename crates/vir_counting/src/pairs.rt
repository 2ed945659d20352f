// Whether a rule is counted with a table of pairs.
ghost use Rattle.std.specs.Prelude.{◌≡◌, false};
ghost use Rattle.vir_term.specs.Tree.{tree};
ghost use Rattle.vir_counting.specs.Pairs.{asks_about_pairs, is_by_pairs, module_asks};

use vir_term::{Leaf, Score, Term};

// Whether a score is to be found by a table of pairs: that of Borda only where it may be asked for many
// times, since one pass over the ballots gives it too.
fn is_by_pairs(often: bool, score: Score) -> bool
    ensures { result ≡ is_by_pairs often score }
{
    match score {
        Score::Plurality => false,
        Score::Borda => often,
        Score::Copeland | Score::Minimax | Score::Condorcet => true,
    }
}

// Whether a module goes by such a score. A loop of modules that compare with the average ends in few
// turns, so they ask for few scores there too.
fn module_asks(again: bool, leaf: &Leaf) -> bool
    ensures { result ≡ module_asks again leaf.now }
{
    match leaf {
        Leaf::Max(score) | Leaf::Min(score) => is_by_pairs(again, *score),
        Leaf::Below(score) | Leaf::Upto(score) => is_by_pairs(false, *score),
        _ => false,
    }
}

// Whether a module of the rule asks so. In a loop it asks again and again.
fn asks(again: bool, rule: &Term) -> bool
    ensures { result ≡ asks_about_pairs again (tree rule.now) }
{
    match rule {
        Term::Leaf(leaf) => module_asks(again, leaf),
        Term::Rev(part) => asks(again, part),
        Term::Seq(first, second) | Term::Par(first, second) => {
            asks(again, first) || asks(again, second)
        }
        Term::Loop { body, .. } | Term::Until { body, .. } => asks(true, body),
    }
}

/// Whether the rule is counted with a table of pairs: where a module goes by a score that compares
/// alternatives one by one, or by the greatest or least of Borda in a loop.
pub fn asks_about_pairs(rule: &Term) -> bool
    ensures { result ≡ asks_about_pairs false (tree rule.now) }
{
    asks(false, rule)
}
