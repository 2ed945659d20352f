// The rules of `drill`.
ghost use Rattle.std.specs.Prelude.{◌≡◌, map, IfOk};
ghost use Rattle.vir_term.specs.declared.leaf.Leaf.TheVariants.{Elect};
ghost use Rattle.vir_term.specs.Tree.{leaf, seq, tree};
ghost use Rattle.vir_counting.specs.DrillResults.{drill_terms};

use std::alloc::{AllocError, Global};
use vir_term::{Leaf, Score, Term};

// The rule that elects all that another one defers.
fn and_elect(alloc: Global, first: Term) -> Result<Term, AllocError>
    ensures { IfOk result (λ term. tree term ≡ seq (tree first) (leaf Elect)) }
{
    let first = Box::new(alloc, first)?;
    let elect = Box::new(alloc, Term::Leaf(Leaf::Elect))?;
    Ok(Term::Seq(first, elect))
}

/// The rules of `drill`, in order.
pub fn drill_terms(alloc: Global) -> Result<Vec<Term>, AllocError>
    ensures { IfOk result (λ terms. map tree terms.items ≡ drill_terms) }
{
    let mut terms = Vec::with_capacity(alloc, 4)?;
    terms.push(Term::Leaf(Leaf::Plurality))?;
    terms.push(and_elect(alloc, Term::Leaf(Leaf::Max(Score::Borda)))?)?;
    terms.push(and_elect(alloc, Term::Leaf(Leaf::Max(Score::Copeland)))?)?;
    let body = Box::new(alloc, Term::Leaf(Leaf::Min(Score::Borda)))?;
    terms.push(and_elect(alloc, Term::Loop { k: 1, body })?)?;
    Ok(terms)
}
