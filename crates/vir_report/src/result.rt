// The text of a result.
ghost use Rattle.std.specs.Prelude.{◌≡◌, ◌∷◌, IfOk, decimal};
ghost use Rattle.vir_altset.specs.Members.{members};
ghost use Rattle.vir_report.specs.ResultText.{spaced, set_line, result_text};
ghost use Rattle.vir_term.specs.Appending.{Appends};

use std::alloc::{AllocError, Global};
use vir_altset::{AltSet, Split};
use vir_term::push_number;

// Appends a space and the number.
#[tactic(auto, using(vir_term::proofs::Beginnings::beginnings))]
fn push_member(text: &mut Vec<u8>, member: u16) -> Result<(), AllocError>
    ensures { Appends result text.old.items text.new.items (32 ∷ decimal member) }
{
    text.extend_from_slice(b" ")?;
    push_number(text, u64::from(member))
}

// Appends a space and the number for each member, ascending.
#[tactic(auto, using(vir_term::proofs::Beginnings::beginnings))]
fn push_members(text: &mut Vec<u8>, set: &AltSet) -> Result<(), AllocError>
    ensures { Appends result text.old.items text.new.items (spaced (members set.now)) }
{
    let mut last = 0;
    while let Some(next) = set.first_after(last) {
        push_member(text, next)?;
        last = next;
    }
    Ok(())
}

/// Appends the line of a set: its name, a colon, and its members.
#[tactic(auto, using(vir_term::proofs::Beginnings::beginnings))]
pub fn push_set(text: &mut Vec<u8>, name: &[u8], set: &AltSet) -> Result<(), AllocError>
    ensures { Appends result text.old.items text.new.items (set_line name.now set.now) }
{
    text.extend_from_slice(name)?;
    text.extend_from_slice(b":")?;
    push_members(text, set)?;
    text.extend_from_slice(b"\n")
}

/// Appends the text of a result: a line for the elected, the rejected and the deferred alternatives.
#[tactic(auto, using(vir_term::proofs::Beginnings::beginnings))]
pub fn push_result(text: &mut Vec<u8>, split: &Split) -> Result<(), AllocError>
    ensures { Appends result text.old.items text.new.items (result_text split.now) }
{
    push_set(text, b"elected", &split.elected)?;
    push_set(text, b"rejected", &split.rejected)?;
    push_set(text, b"deferred", &split.deferred)
}

/// The text of a result.
pub fn result_text(alloc: Global, split: &Split) -> Result<Vec<u8>, AllocError>
    ensures { IfOk result (λ text. text.items ≡ result_text split.now) }
{
    let mut text = Vec::new(alloc);
    push_result(&mut text, split)?;
    Ok(text)
}
