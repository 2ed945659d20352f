// The text of a derivation.
ghost use Rattle.std.specs.Prelude.{◌≡◌, IfOk};
ghost use Rattle.vir_rules.specs.RuleTrees.{gathered, rule_tree, rule_trees};
ghost use Rattle.vir_rules.specs.Texts.{children_text, derivation_text};
ghost use Rattle.vir_term.specs.Appending.{Appends};

use std::alloc::{AllocError, Global};
use vir_rules::{Children, Derivation};

// Appends the derivations in parentheses, separated by commas; nothing where there are none.
#[cycle(push_derivation)]
#[tactic(auto, using(vir_term::proofs::Beginnings::beginnings))]
fn push_children(text: &mut Vec<u8>, children: &Children) -> Result<(), AllocError>
    ensures { Appends result text.old.items text.new.items (children_text (gathered (rule_trees children.now))) }
{
    let Some(first) = children.at(0) else {
        return Ok(());
    };
    text.extend_from_slice(b"(")?;
    push_derivation(text, first)?;
    for i in 1..children.len() {
        let Some(child) = children.at(i) else {
            unreachable!()
        };
        text.extend_from_slice(b",")?;
        push_derivation(text, child)?;
    }
    text.extend_from_slice(b")")
}

/// Appends the text of a derivation: its rule's name, and its children in parentheses where it has any.
#[cycle(push_derivation)]
#[tactic(auto, using(vir_term::proofs::Beginnings::beginnings))]
pub fn push_derivation(text: &mut Vec<u8>, derivation: &Derivation) -> Result<(), AllocError>
    ensures { Appends result text.old.items text.new.items (derivation_text (rule_tree derivation.now)) }
{
    text.extend_from_slice(derivation.rule.name().as_bytes())?;
    push_children(text, &derivation.children)
}

/// The text of a derivation.
pub fn derivation_text(alloc: Global, derivation: &Derivation) -> Result<Vec<u8>, AllocError>
    ensures { IfOk result (λ text. text.items ≡ derivation_text (rule_tree derivation.now)) }
{
    let mut text = Vec::new(alloc);
    push_derivation(&mut text, derivation)?;
    Ok(text)
}
