// The text of a property.
ghost use Rattle.std.specs.Prelude.{◌≡◌, IfOk, List, ℕ};
ghost use Rattle.vir_rules.specs.Props.{in_parentheses, number_text, prop_text};
ghost use Rattle.vir_term.specs.Appending.{Appends};

use std::alloc::{AllocError, Global};
use vir_rules::{Prop, prop_word};
use vir_term::push_number;

// Appends a number in parentheses.
#[tactic(auto, using(vir_term::proofs::Beginnings::beginnings))]
fn push_in_parentheses(text: &mut Vec<u8>, number: u32) -> Result<(), AllocError>
    ensures { Appends result text.old.items text.new.items (in_parentheses number) }
{
    text.extend_from_slice(b"(")?;
    push_number(text, u64::from(number))?;
    text.extend_from_slice(b")")
}

// Appends the number of a property in parentheses; nothing where it has none.
#[tactic(auto, using(vir_term::proofs::Beginnings::beginnings))]
fn push_number_of(text: &mut Vec<u8>, prop: Prop) -> Result<(), AllocError>
    ensures { Appends result text.old.items text.new.items (number_text prop) }
{
    match prop {
        Prop::Defers(k) | Prop::Rejects(k) | Prop::Elim(k) => push_in_parentheses(text, k),
        _ => Ok(()),
    }
}

/// Appends the text of a property: its name, and its number in parentheses where it has one.
#[tactic(auto, using(vir_term::proofs::Beginnings::beginnings))]
pub fn push_prop(text: &mut Vec<u8>, prop: Prop) -> Result<(), AllocError>
    ensures { Appends result text.old.items text.new.items (prop_text prop) }
{
    text.extend_from_slice(prop_word(prop).as_bytes())?;
    push_number_of(text, prop)
}

/// The text of a property.
pub fn prop_text(alloc: Global, prop: Prop) -> Result<Vec<u8>, AllocError>
    ensures { IfOk result (λ text. text.items ≡ prop_text prop) }
{
    let mut text = Vec::new(alloc);
    push_prop(&mut text, prop)?;
    Ok(text)
}
