// Trees of rules.
ghost use Rattle.std.specs.Prelude.{◌≡◌, [], ◌∷◌, ◌++◌, length, slice_get, option_map, OnOk, OnErr};
ghost use Rattle.vir_rules.specs.RuleTrees.{rule_tree, rule_trees};

use crate::rule_id::RuleId;
use std::alloc::{AllocError, Global};

/// A tree of rules: a rule, and a derivation of each of its premises in their order. Whether it is one
/// of a judgement is another matter.
#[cycle(derivation)]
#[derive(Drop)]
pub struct Derivation {
    pub rule: RuleId,
    pub children: Children,
}

/// A list of derivations.
#[cycle(derivation)]
#[derive(Drop)]
pub struct Children {
    items: Vec<Derivation>,
}

impl Children {
    /// No derivations. The allocator is for those that come.
    pub fn new(alloc: Global) -> Children
        ensures { rule_trees result ≡ [] }
    {
        Children {
            items: Vec::new(alloc),
        }
    }

    /// Adds a derivation at the end. Where memory runs out, the list is as before, and the derivation is
    /// dropped.
    pub fn push(&mut self, child: Derivation) -> Result<(), AllocError>
        ensures ok { OnOk result (rule_trees self.new ≡ rule_trees self.old ++ rule_tree child ∷ []) }
        ensures err { OnErr result (rule_trees self.new ≡ rule_trees self.old) }
    {
        self.items.push(child)?;
        Ok(())
    }

    /// How many derivations there are.
    pub fn len(&self) -> usize
        ensures { result ≡ length (rule_trees self.now) }
    {
        self.items.len()
    }

    /// The derivation at a place, the first one at 0; none where the list ends before.
    pub fn at(&self, i: usize) -> Option<&Derivation>
        ensures { option_map (λ child. rule_tree child.now) result ≡ slice_get (rule_trees self.now) i }
    {
        self.items.get(i)
    }
}
