// Lines, read from pieces that may be cut anywhere.
ghost use Rattle.std.specs.Prelude.{◌≡◌, ◌+◌, ◌++◌, ◌<◌, ◌≤◌, ◌^◌, [], drop, false, length, nat_eq, take, Ok, OnOk};
ghost use Rattle.std.specs.Prelude.{IfOk, IfErr, MatchOption};
ghost use Rattle.std.specs.List.{after_first, before_first, list_any};
ghost use Rattle.vir_profile.specs.SocFiles.{is_line_feed};
ghost use Rattle.vir_soc.specs.Reader.Answers.{Fails, Gives, fault_in};
ghost use Rattle.vir_soc.specs.Reader.Pieces as rules;
ghost use Rattle.vir_soc.specs.Reader.UsualLines.{HasLineFeed};
ghost use Rattle.vir_soc.specs.Reader.Views.{progress_of};

use crate::bytes::{ended_len, first_line};
use crate::draft::Draft;
use crate::fault::{SocError, SocFault};
use crate::line::after_line;
use crate::stop::Stop;
use crate::votes::take_ended;
use std::alloc::{AllocError, Global};
use std::marker::Model;
use std::mem::replace;

/// The bytes of a line that has begun and that no line feed has ended yet.
#[derive(Drop)]
pub struct Begun {
    bytes: Vec<u8>,
}

impl Model for Begun {
    ghost use Rattle.std.specs.Prelude.{◌≡◌, ℕ, false, List};
    ghost use Rattle.std.specs.List.{list_any};
    ghost use Rattle.vir_profile.specs.SocFiles.{is_line_feed};

    ghost Value = { List ℕ };

    ghost view = { λ a. a.bytes.items };

    ghost invariant = { λ a. list_any is_line_feed a.bytes.items ≡ false };
}

impl Begun {
    /// A line without bytes.
    pub fn new(alloc: Global) -> Begun
        ensures { result ≡ [] }
    {
        Begun {
            bytes: Vec::new(alloc),
        }
    }

    fn is_empty(&self) -> bool
        ensures { result ≡ nat_eq (length self.now) 0 }
    {
        self.bytes.is_empty()
    }

    /// The line goes on with these bytes.
    fn extend(&mut self, bytes: &[u8]) -> Result<(), AllocError>
        requires { list_any is_line_feed bytes.now ≡ false }
        ensures { OnOk result (self.new ≡ self.old ++ bytes.now) }
    {
        self.bytes.extend_from_slice(bytes)
    }

    /// The bytes so far. The line has none from now on.
    fn take(&mut self, alloc: Global) -> Vec<u8>
        ensures bytes { result.items ≡ self.old }
        ensures known { list_any is_line_feed result.items ≡ false }
        ensures left { self.new ≡ [] }
    {
        replace(&mut self.bytes, Vec::new(alloc))
    }

    /// The bytes so far.
    pub fn bytes(&self) -> &[u8]
        ensures bytes { result.now ≡ self.now }
        ensures known { list_any is_line_feed result.now ≡ false }
    {
        self.bytes.as_slice()
    }
}

/// The content of the ended lines, and the line that has begun.
#[derive(Drop)]
pub struct LineReader {
    pub draft: Draft,
    /// The number of the line that has begun.
    pub line: u64,
    pub begun: Begun,
}

/// Takes the line that these bytes are.
fn end_line(alloc: Global, reader: &mut LineReader, text: &[u8]) -> Result<(), SocError>
    requires line { reader.old.line + 1 < 2 ^ 64 }
    requires begun { reader.old.begun ≡ [] }
    requires one_line { list_any is_line_feed text.now ≡ false }
    ensures exact { Gives fault_in (λ _. progress_of reader.new) result
        (rules.end_line (progress_of reader.old) text.now) }
{
    let line = reader.line;
    match after_line(alloc, &mut reader.draft, line, text) {
        Ok(()) => {}
        Err(Stop::Kind(kind)) => return Err(SocError::Fault(SocFault { line, kind })),
        Err(Stop::Memory) => return Err(SocError::Memory),
    }
    reader.line = line + 1;
    Ok(())
}

/// Takes the line with which the bytes begin, where it is one of votes in the usual shape, and there is room for it.
/// Gives what stands behind its line feed.
fn take_usual<'a>(alloc: Global, reader: &mut LineReader, bytes: &'a [u8]) -> Option<&'a [u8]>
    requires line { reader.old.line + 1 < 2 ^ 64 }
    requires begun { reader.old.begun ≡ [] }
    requires feed { HasLineFeed bytes.now }
    ensures { MatchOption result (reader.new ≡ reader.old) (λ rest. (rest.now ≡ after_first is_line_feed bytes.now)
        × (rules.end_line (progress_of reader.old) (before_first is_line_feed bytes.now)
        ≡ Ok (progress_of reader.new))) }
{
    let Some(profile) = &mut reader.draft.profile else {
        return None;
    };
    let rest = take_ended(alloc, profile, bytes)?;
    reader.line += 1;
    Some(rest)
}

/// Takes the line with which the bytes begin, where none has begun before them. Gives what stands behind its line feed.
fn take_line<'a>(
    alloc: Global,
    reader: &mut LineReader,
    bytes: &'a [u8],
) -> Result<&'a [u8], SocError>
    requires line { reader.old.line + 1 < 2 ^ 64 }
    requires begun { reader.old.begun ≡ [] }
    requires feed { HasLineFeed bytes.now }
    ensures exact { Gives fault_in (λ _. progress_of reader.new) result
        (rules.end_line (progress_of reader.old) (before_first is_line_feed bytes.now)) }
    ensures rest { IfOk result (λ rest. rest.now ≡ after_first is_line_feed bytes.now) }
{
    match take_usual(alloc, reader, bytes) {
        Some(rest) => return Ok(rest),
        None => {}
    }
    let (line, rest) = first_line(bytes);
    end_line(alloc, reader, line)?;
    Ok(rest)
}

/// Takes lines, each with its line feed, where none has begun before them.
fn take_lines(alloc: Global, reader: &mut LineReader, bytes: &[u8]) -> Result<(), SocError>
    requires line { reader.old.line + length bytes.now < 2 ^ 64 }
    requires begun { reader.old.begun ≡ [] }
    requires ended { rules.unended [] bytes.now ≡ [] }
    ensures exact { Gives fault_in (λ _. progress_of reader.new) result
        (rules.reads (progress_of reader.old) bytes.now) }
{
    let mut rest = bytes;
    while !rest.is_empty() {
        rest = take_line(alloc, reader, rest)?;
    }
    Ok(())
}

/// Takes the line that has begun, which ends at the first line feed of these bytes. Gives what stands behind it.
fn take_begun<'a>(
    alloc: Global,
    reader: &mut LineReader,
    bytes: &'a [u8],
) -> Result<&'a [u8], SocError>
    requires line { reader.old.line + 1 < 2 ^ 64 }
    requires feed { HasLineFeed bytes.now }
    ensures exact { Gives fault_in (λ _. progress_of reader.new) result
        (rules.end_line (progress_of reader.old) (before_first is_line_feed bytes.now)) }
    ensures rest { IfOk result (λ rest. rest.now ≡ after_first is_line_feed bytes.now) }
{
    let (end, rest) = first_line(bytes);
    let mut line = reader.begun.take(alloc);
    line.extend_from_slice(end)?;
    line.extend_from_slice(b"\n")?;
    take_line(alloc, reader, &line)?;
    Ok(rest)
}

/// Takes bytes that are empty or end in a line feed.
fn take_ended_lines(alloc: Global, reader: &mut LineReader, bytes: &[u8]) -> Result<(), SocError>
    requires line { reader.old.line + length bytes.now < 2 ^ 64 }
    requires ended { rules.unended [] bytes.now ≡ [] }
    ensures exact { Gives fault_in (λ _. progress_of reader.new) result
        (rules.reads (progress_of reader.old) bytes.now) }
{
    if reader.begun.is_empty() {
        return take_lines(alloc, reader, bytes);
    }
    if bytes.is_empty() {
        return Ok(());
    }
    let rest = take_begun(alloc, reader, bytes)?;
    take_lines(alloc, reader, rest)
}

/// Takes further bytes.
pub fn read(alloc: Global, reader: &mut LineReader, piece: &[u8]) -> Result<(), SocError>
    requires { reader.old.line + length piece.now < 2 ^ 64 }
    ensures exact { Gives fault_in (λ _. progress_of reader.new) result
        (rules.reads (progress_of reader.old) piece.now) }
    ensures line { OnOk result (reader.new.line ≤ reader.old.line + length piece.now) }
{
    let (lines, begun) = piece.split_at(ended_len(piece));
    take_ended_lines(alloc, reader, lines)?;
    reader.begun.extend(begun)?;
    Ok(())
}
