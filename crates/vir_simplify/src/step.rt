// Steps.
use crate::equation::Equation;

/// A step from a term to another one of the same meaning: in place of the left side of an equation, its right
/// side is put.
#[derive(Clone, Copy, Debug, PartialEq, Eq)]
pub struct Step {
    /// Which subterm is replaced: its number in preorder, the whole term being 0.
    pub place: u32,
    /// The equation whose left side it is.
    pub equation: Equation,
}
