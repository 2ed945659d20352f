// The outermost forms of terms.
ghost use Rattle.std.specs.Prelude.{◌≡◌};
ghost use Rattle.vir_term.specs.Tree.{tree};
ghost use Rattle.vir_rules.specs.Forms.{form_of, form_seen, is_shaped};

use crate::row::Shape;
use vir_term::{Leaf, Term};

/// The outermost form of a term, without its parts.
#[derive(Clone, Copy)]
pub enum Form<'a> {
    /// A module.
    Leaf(&'a Leaf),
    /// Revision.
    Rev,
    /// Sequential composition.
    Seq,
    /// Parallel composition.
    Par,
    /// A loop that ends at so many alternatives.
    Loop(u32),
    /// A loop that ends at so many alternatives or fewer.
    Until(u32),
}

impl<'a> Form<'a> {
    /// The outermost form of a term.
    pub fn of(term: &'a Term) -> Form<'a>
        ensures { form_seen result ≡ form_of (tree term.now) }
    {
        match term {
            Term::Leaf(leaf) => Form::Leaf(leaf),
            Term::Rev(_) => Form::Rev,
            Term::Seq(_, _) => Form::Seq,
            Term::Par(_, _) => Form::Par,
            Term::Loop { k, .. } => Form::Loop(*k),
            Term::Until { k, .. } => Form::Until(*k),
        }
    }

    // Whether the form is of a shape, where k is the number that the shape speaks of.
    pub(crate) fn is_shaped(self, shape: Shape, k: u32) -> bool
        ensures { result ≡ is_shaped shape k (form_seen self.entry) }
    {
        match (shape, self) {
            (Shape::Any, _) => true,
            (Shape::ModuleOf(family), Form::Leaf(leaf)) => family.has(leaf.kind()),
            (Shape::PassK, Form::Leaf(Leaf::PassFirst { k: j, .. })) => *j == k,
            (Shape::DropK, Form::Leaf(Leaf::DropFirst { k: j, .. })) => *j == k,
            (Shape::Rev, Form::Rev) => true,
            (Shape::Seq, Form::Seq) => true,
            (Shape::Par, Form::Par) => true,
            (Shape::Loop, Form::Loop(_)) => true,
            (Shape::LoopK, Form::Loop(j)) => j == k,
            (Shape::LoopOne, Form::Loop(j)) => j == 1,
            (Shape::Until, Form::Until(_)) => true,
            (Shape::UntilK, Form::Until(j)) => j == k,
            (Shape::UntilOne, Form::Until(j)) => j == 1,
            _ => false,
        }
    }
}
