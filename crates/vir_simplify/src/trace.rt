// Lists of steps.
ghost use Rattle.std.specs.Prelude.{◌≡◌, ◌↔◌, [], IsTrue, length, option_copied, slice_get};

use crate::step::Step;
use std::marker::Model;

/// The steps from a term to another one.
#[derive(Debug, Drop)]
pub struct Trace {
    pub(crate) list: Vec<Step>,
}

impl Model for Trace {
    ghost use Rattle.std.specs.Prelude.{List};
    ghost use Rattle.vir_simplify.specs.declared.step.Step.{Step};

    ghost Value = { List Step };

    ghost view = { λ trace. trace.list.items };
}

impl Trace {
    /// How many steps there are.
    pub fn len(&self) -> usize
        ensures { result ≡ length self.now }
    {
        self.list.len()
    }

    /// Whether there are none.
    pub fn is_empty(&self) -> bool
        ensures { IsTrue result ↔ (self.now ≡ []) }
    {
        self.list.is_empty()
    }

    /// The step at a place of the list, the first one at 0; none where the list ends before.
    pub fn at(&self, i: usize) -> Option<&Step>
        ensures { option_copied result ≡ slice_get self.now i }
    {
        self.list.get(i)
    }

    /// All steps in their order.
    pub fn steps(&self) -> &[Step]
        ensures { result.now ≡ self.now }
    {
        &self.list
    }
}
