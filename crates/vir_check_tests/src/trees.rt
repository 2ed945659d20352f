// Derivations as they stand in a table.
use std::alloc::{AllocError, Global};
use std::process::Abort;
use vir_rules::{Children, Derivation, RuleId};

/// A rule, by its name, and what derives its premises.
#[derive(Clone, Copy)]
pub struct Tree(pub &'static str, pub &'static [Tree]);

/// The derivation that a tree stands for.
pub fn derivation_of(
    rt: &impl Abort,
    alloc: Global,
    tree: &Tree,
) -> Result<Derivation, AllocError> {
    let Tree(name, parts) = tree;
    let Some(rule) = RuleId::named(name.as_bytes()) else {
        panic!(rt; "no rule is called {name}");
    };
    let mut children = Children::new(alloc);
    for part in parts.iter() {
        children.push(derivation_of(rt, alloc, part)?)?;
    }
    Ok(Derivation { rule, children })
}
