// Code as text.
ghost use Rattle.std.specs.Prelude.{◌≡◌, ◌++◌, IfOk, OnOk, codes, decimal};
ghost use Rattle.vir_code.specs.Listing.{instr_text, line_text, listing_text};

use crate::code::Code;
use crate::instr::Instr;
use std::alloc::{AllocError, Global};
use vir_term::{push_leaf, push_number};

/// The listing of the code: one line for each instruction, with its position, its name and its
/// arguments, in decimal digits and the words of the rule language.
pub fn listing(alloc: Global, code: &Code) -> Result<Vec<u8>, AllocError>
    ensures { IfOk result (λ text. text.items ≡ listing_text code.now) }
{
    let mut text = Vec::new(alloc);
    push_lines(&mut text, &code.list)?;
    Ok(text)
}

// Appends the lines of a list.
fn push_lines(text: &mut Vec<u8>, list: &[Instr]) -> Result<(), AllocError>
    ensures { OnOk result (text.new.items ≡ text.old.items ++ listing_text list.now) }
{
    for (at, instr) in list.iter().enumerate() {
        push_line(text, at, instr)?;
    }
    Ok(())
}

// Appends the line of an instruction at a position.
fn push_line(text: &mut Vec<u8>, at: usize, instr: &Instr) -> Result<(), AllocError>
    ensures { OnOk result (text.new.items ≡ text.old.items ++ line_text at instr.now) }
{
    push_position(text, at)?;
    text.extend_from_slice(b" ")?;
    push_instr(text, instr)?;
    text.push(b'\n')?;
    Ok(())
}

// Appends the name of an instruction, and its arguments.
fn push_instr(text: &mut Vec<u8>, instr: &Instr) -> Result<(), AllocError>
    ensures { OnOk result (text.new.items ≡ text.old.items ++ instr_text instr.now) }
{
    match instr {
        Instr::Call(leaf) => {
            text.extend_from_slice(b"call ")?;
            push_leaf(text, leaf)
        }
        Instr::KeepDomain => text.extend_from_slice(b"keep-domain"),
        Instr::FetchDomain => text.extend_from_slice(b"fetch-domain"),
        Instr::JoinSeq => text.extend_from_slice(b"join-seq"),
        Instr::JoinMax => text.extend_from_slice(b"join-max"),
        Instr::Revise => text.extend_from_slice(b"revise"),
        Instr::StartLoop => text.extend_from_slice(b"start-loop"),
        Instr::LoopTest { k, exit } => push_test(text, b"loop-test ", *k, *exit),
        Instr::UntilTest { k, exit } => push_test(text, b"until-test ", *k, *exit),
        Instr::LoopBack { start } => {
            text.extend_from_slice(b"loop-back ")?;
            push_position(text, *start)
        }
        Instr::EndLoop => text.extend_from_slice(b"end-loop"),
    }
}

// Appends a loop's test, whose name ends with a space.
fn push_test(text: &mut Vec<u8>, name: &[u8], k: u32, exit: usize) -> Result<(), AllocError>
    ensures { OnOk result (text.new.items ≡ text.old.items ++ (name.now ++ decimal k ++ codes " " ++ decimal exit)) }
{
    text.extend_from_slice(name)?;
    push_number(text, u64::from(k))?;
    text.extend_from_slice(b" ")?;
    push_position(text, exit)
}

// Appends a position in decimal digits.
fn push_position(text: &mut Vec<u8>, at: usize) -> Result<(), AllocError>
    ensures { OnOk result (text.new.items ≡ text.old.items ++ decimal at) }
{
    push_number(text, at as u64)
}
