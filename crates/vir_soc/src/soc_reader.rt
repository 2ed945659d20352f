// A file, read in pieces.
ghost use Rattle.std.specs.Prelude.{◌≡◌, ◌+◌, ◌++◌, ◌≤◌, [], List, ℕ, None, Err, OnOk, IfOk, IfErr};
ghost use Rattle.vir_soc.specs.declared.fault.SocError.{SocError};
ghost use Rattle.vir_soc.specs.Reader.Answers.{Gives, Shows, fault_in};
ghost use Rattle.vir_soc.specs.Reader.Pieces.{closed, feeds};
ghost use Rattle.vir_soc.specs.Limits.{profile_size_limit};
ghost use Rattle.vir_soc.specs.Soc.{agrees, settled, soc, complete_file};
ghost use Rattle.vir_soc.specs.Reader.Stands.{stands};
ghost use Rattle.vir_soc.specs.Reader.Views.{reading_of, content_of};

use crate::draft::Draft;
use crate::fault::{SocError, SocFault};
use crate::kind::SocKind;
use crate::line::after_line;
use crate::line_reader::{Begun, LineReader, read};
use crate::stated::Stated;
use crate::stop::Stop;
use std::alloc::Global;
use std::marker::Model;
use vir_profile::SocFile;

/// The most bytes that the file of a profile may have.
pub const PROFILE_SIZE_LIMIT: u64 = 268_435_456;

/// Takes a further piece, and gives the new size.
fn take(alloc: Global, reader: &mut LineReader, size: u64, piece: &[u8]) -> Result<u64, SocError>
    requires size { size ≤ profile_size_limit }
    requires line { reader.old.line ≤ size + 1 }
    ensures exact { Gives fault_in (λ new. reading_of reader.new new) result
        (feeds (reading_of reader.old size) piece.now) }
    ensures size { IfOk result (λ new. (new ≤ profile_size_limit) × (reader.new.line ≤ new + 1)) }
{
    let room = PROFILE_SIZE_LIMIT - size;
    if piece.len() as u64 <= room {
        read(alloc, reader, piece)?;
        Ok(size + piece.len() as u64)
    } else {
        read(alloc, reader, &piece[..room as usize])?;
        Err(SocError::Fault(SocFault {
            line: reader.line,
            kind: SocKind::FileTooLong,
        }))
    }
}

/// Compares a number that metadata stated with this one.
fn agrees(stated: Option<Stated>, n: u64, kind: SocKind) -> Result<(), SocError>
    ensures { Gives fault_in (λ unit. unit) result (agrees stated n kind) }
{
    match stated {
        None => Ok(()),
        Some(stated) => if stated.value == n {
            Ok(())
        } else {
            Err(SocError::Fault(SocFault {
                line: stated.line,
                kind,
            }))
        },
    }
}

/// The file of which this is the content of all lines.
#[tactic(auto, unfolding(crate::specs::Soc::complete_file))]
fn complete_file(alloc: Global, draft: Draft, last: u64) -> Result<SocFile, SocError>
    ensures { Gives fault_in (λ file. file) result (complete_file (content_of draft) last) }
{
    let Draft {
        profile,
        voters,
        orders,
        names,
    } = draft;
    let Some(profile) = profile else {
        return Err(SocError::Fault(SocFault {
            line: last,
            kind: SocKind::NoAlternativeCount,
        }));
    };
    agrees(voters, profile.total(), SocKind::VotersDiffer)?;
    agrees(orders, profile.lines() as u64, SocKind::OrdersDiffer)?;
    let names = names.up_to(alloc, profile.alternatives())?;
    Ok(SocFile::of(profile, names))
}

/// The file whose last line is this one.
fn close(alloc: Global, draft: Draft, line: u64, last: &Begun) -> Result<SocFile, SocError>
    ensures { Gives fault_in (λ file. file) result (closed (content_of draft) line last.now) }
{
    let mut draft = draft;
    match after_line(alloc, &mut draft, line, last.bytes()) {
        Ok(()) => {}
        Err(Stop::Kind(kind)) => return Err(SocError::Fault(SocFault { line, kind })),
        Err(Stop::Memory) => return Err(SocError::Memory),
    }
    complete_file(alloc, draft, line)
}

/// Reads a file in pieces, and keeps at most one unfinished line beside what the lines so far say.
///
/// A reader stands for the bytes that it was fed since it was made, as long as no call answered an
/// error. An error is final: each later call answers it again.
#[derive(Drop)]
pub struct SocReader {
    alloc: Global,
    reader: LineReader,
    size: u64,
    stopped: Option<SocError>,
}

impl Model for SocReader {
    ghost use Rattle.std.specs.Prelude.{◌≡◌, ◌+◌, ◌≤◌, Result, None};
    ghost use Rattle.vir_soc.specs.declared.fault.SocError.{SocError};
    ghost use Rattle.vir_soc.specs.Limits.{profile_size_limit};
    ghost use Rattle.vir_soc.specs.Reader.Pieces.{Reading};
    ghost use Rattle.vir_soc.specs.Reader.Stands.{state_of};

    ghost Value = { Result Reading SocError };

    ghost view = { λ a. state_of a.reader a.size a.stopped };

    ghost invariant = { λ a. a.stopped ≡ None → (a.size ≤ profile_size_limit) × (a.reader.line ≤ a.size + 1) };
}

impl SocReader {
    /// A reader of a file of which no byte is read yet. It takes memory from this allocator as it
    /// reads.
    pub fn new(alloc: Global) -> SocReader
        ensures { result ≡ stands [] }
    {
        SocReader {
            alloc,
            reader: LineReader {
                draft: Draft::new(alloc),
                line: 1,
                begun: Begun::new(alloc),
            },
            size: 0,
            stopped: None,
        }
    }

    /// Takes the next piece of the file, which may be cut anywhere. A fault is answered with the piece
    /// by which the bytes so far settle it.
    pub fn feed(&mut self, piece: &[u8]) -> Result<(), SocError>
        // It stood for some bytes: now it stands for these and the piece, which settle no fault.
        ensures ok { (bytes : List ℕ) → self.old ≡ stands bytes
            → OnOk result ((self.new ≡ stands (bytes ++ piece.now)) × (settled (bytes ++ piece.now) ≡ None)) }
        // A fault is the one that these bytes and the piece settle.
        ensures fault { (bytes : List ℕ) → self.old ≡ stands bytes
            → IfErr result (λ e. Shows e (settled (bytes ++ piece.now))) }
        // An error is kept, and a reader that keeps one answers it.
        ensures keeps { IfErr result (λ e. self.new ≡ Err e) }
        ensures again { (e : SocError) → self.old ≡ Err e → result ≡ Err e }
    {
        match self.stopped {
            Some(stop) => return Err(stop),
            None => {}
        }
        match take(self.alloc, &mut self.reader, self.size, piece) {
            Ok(size) => {
                self.size = size;
                Ok(())
            }
            Err(stop) => {
                self.stopped = Some(stop);
                Err(stop)
            }
        }
    }

    /// What the file says, once all its pieces are fed.
    pub fn finish(self) -> Result<SocFile, SocError>
        // It stood for some bytes: the answer is what the format says of these.
        ensures file { (bytes : List ℕ) → self ≡ stands bytes
            → Gives fault_in (λ file. file) result (soc bytes) }
        ensures again { (e : SocError) → self ≡ Err e → result ≡ Err e }
    {
        match self.stopped {
            Some(stop) => return Err(stop),
            None => {}
        }
        let SocReader {
            alloc,
            reader,
            size: _,
            stopped: _,
        } = self;
        let LineReader { draft, line, begun } = reader;
        close(alloc, draft, line, &begun)
    }
}
