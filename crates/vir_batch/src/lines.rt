// The lines of a batch, while they are written.
ghost use Rattle.std.specs.Prelude.{◌≡◌, ◌≤◌, ◌<◌, ◌+◌, ◌-◌, ◌^◌, ◌++◌, [], codes, decimal, OnOk, IfOk};
ghost use Rattle.vir_batch.specs.BatchTexts.{counted_line, last_line, one_line, refused_line, spaced_byte};
ghost use Rattle.vir_batch.specs.Stages.{IsLinePut};

use std::alloc::{AllocError, Global};
use vir_profile::Split;
use vir_report::result_text;
use vir_soc::SocFault;
use vir_term::push_number;

/// The lines of a batch so far, how many profiles they tell of, and how many of these are refused.
#[derive(Drop)]
pub struct Lines {
    text: Vec<u8>,
    profiles: usize,
    refused: usize,
}

// A space in the place of a line feed.
fn spaced_byte(byte: u8) -> u8
    ensures { result ≡ spaced_byte byte }
{
    if byte == b'\n' { b' ' } else { byte }
}

// Appends lines as one.
fn push_one_line(text: &mut Vec<u8>, lines: &[u8]) -> Result<(), AllocError>
    ensures { OnOk result (text.new.items ≡ text.old.items ++ one_line lines.now) }
{
    let end = lines.len().saturating_sub(1);
    for byte in &lines[..end] {
        text.push(spaced_byte(*byte))?;
    }
    text.push(b'\n')?;
    Ok(())
}

// Appends the line of a profile that is accepted.
fn push_counted_line(
    alloc: Global,
    text: &mut Vec<u8>,
    name: &str,
    voters: u64,
    split: &Split,
) -> Result<(), AllocError>
    ensures { OnOk result (text.new.items ≡ text.old.items ++ counted_line name.now voters split.now) }
{
    text.extend_from_slice(name.as_bytes())?;
    text.extend_from_slice(b" voters ")?;
    push_number(text, voters)?;
    text.extend_from_slice(b" ")?;
    push_one_line(text, &result_text(alloc, split)?)
}

// Appends the line of a profile that is refused.
fn push_refused_line(text: &mut Vec<u8>, name: &str, fault: SocFault) -> Result<(), AllocError>
    ensures { OnOk result (text.new.items ≡ text.old.items ++ refused_line name.now fault) }
{
    text.extend_from_slice(name.as_bytes())?;
    text.extend_from_slice(b" refused ")?;
    text.extend_from_slice(fault.kind.name().as_bytes())?;
    text.extend_from_slice(b" at line ")?;
    push_number(text, fault.line)?;
    text.extend_from_slice(b"\n")
}

// Appends the last line.
fn push_last_line(text: &mut Vec<u8>, profiles: usize, refused: usize) -> Result<(), AllocError>
    ensures { OnOk result (text.new.items ≡ text.old.items ++ last_line profiles refused) }
{
    text.extend_from_slice(b"profiles ")?;
    push_number(text, profiles as u64)?;
    text.extend_from_slice(b" refused ")?;
    push_number(text, refused as u64)?;
    text.extend_from_slice(b"\n")
}

impl Lines {
    /// No lines.
    pub fn new(alloc: Global) -> Lines
        ensures text { result.text.items ≡ [] }
        ensures profiles { result.profiles ≡ 0 }
        ensures refused { result.refused ≡ 0 }
    {
        Lines {
            text: Vec::new(alloc),
            profiles: 0,
            refused: 0,
        }
    }

    /// Adds the line of a profile that is accepted.
    pub fn put_counted(
        &mut self,
        alloc: Global,
        name: &str,
        voters: u64,
        split: &Split,
    ) -> Result<(), AllocError>
        requires { self.old.profiles < 2 ^ 64 - 1 }
        ensures { OnOk result (IsLinePut (counted_line name.now voters split.now) 0 self.old self.new) }
    {
        push_counted_line(alloc, &mut self.text, name, voters, split)?;
        self.profiles += 1;
        Ok(())
    }

    /// Adds the line of a profile that is refused.
    pub fn put_refused(&mut self, name: &str, fault: SocFault) -> Result<(), AllocError>
        requires profiles { self.old.profiles < 2 ^ 64 - 1 }
        requires refused { self.old.refused ≤ self.old.profiles }
        ensures { OnOk result (IsLinePut (refused_line name.now fault) 1 self.old self.new) }
    {
        push_refused_line(&mut self.text, name, fault)?;
        self.profiles += 1;
        self.refused += 1;
        Ok(())
    }

    /// The text with its last line.
    pub fn finish(self) -> Result<Vec<u8>, AllocError>
        ensures { IfOk result (λ text. text.items ≡ self.text.items ++ last_line self.profiles self.refused) }
    {
        let Lines {
            mut text,
            profiles,
            refused,
        } = self;
        push_last_line(&mut text, profiles, refused)?;
        Ok(text)
    }
}
