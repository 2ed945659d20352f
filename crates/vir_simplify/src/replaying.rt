// Taking the steps of a list.
ghost use Rattle.std.specs.Prelude.{IfOk, IfSome, MatchOption};
ghost use Rattle.vir_term.specs.Tree.{Tree, tree};
ghost use Rattle.vir_simplify.specs.Meanings.{MeanTheSame};
ghost use Rattle.vir_simplify.specs.Steps.{Replays};

use crate::rewriting::taken;
use crate::step::Step;
use std::alloc::{AllocError, Global};
use vir_term::Term;

/// The term that comes of taking these steps in their order, which has the same meaning. There is none where
/// a step names a place that the term at hand hasn't, or an equation that doesn't fit there, or where it
/// leads to a term that isn't within the limits.
pub fn replay(alloc: Global, term: &Term, steps: &[Step]) -> Result<Option<Term>, AllocError>
    ensures replayed { IfOk result (λ found. MatchOption found
        ((other : Tree) → Replays (tree term.now) steps.now other → ⊥)
        (λ new. Replays (tree term.now) steps.now (tree new))) }
    ensures meaning { IfOk result (λ found. IfSome found (λ new. MeanTheSame (tree term.now) (tree new))) }
{
    let mut current = term.copy(alloc)?;
    for step in steps {
        match taken(alloc, &current, *step)? {
            Some(new) => current = new,
            None => return Ok(None),
        }
    }
    Ok(Some(current))
}
