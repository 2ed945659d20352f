// A profile, read in pieces to its end or to its first fault.
ghost use Rattle.std.specs.Prelude.{◌≡◌, ◌≤◌, ◌+◌, ℕ, List, IsTrue, IfOk, IfErr, Err};
ghost use Rattle.vir_files.specs.Feeding.{AnswersRest, Finishes, StandsForRest, StopsAtFault, TakesPieces, stop_of};
ghost use Rattle.vir_files.specs.Files.{profiles};
ghost use Rattle.vir_files.specs.Performs.{ReadsFile};
ghost use Rattle.vir_outside.specs.Shelf.{Faulted, IsLater, ReadsOn};
ghost use Rattle.vir_soc.specs.Reader.Stands.{stands};

use std::alloc::Global;
use vir_course::Stop;
use vir_outside::Shelf;
use vir_profile::SocFile;
use vir_soc::{SocError, SocReader};

/// The most bytes that a profile may have.
const SIZE_LIMIT: usize = vir_soc::PROFILE_SIZE_LIMIT as usize;

/// How many bytes are read at a time.
const PIECE: usize = 8_192;

// Why a call stops where the reader stops.
fn stop_of(error: SocError) -> Stop
    ensures { result ≡ stop_of error }
{
    match error {
        SocError::Fault(fault) => Stop::ProfileRefused(fault),
        SocError::Memory => Stop::Memory,
    }
}

// How many bytes are asked for where so many are taken: at most a piece, and all in all at most one
// more than the limit.
fn room_after(taken: usize) -> usize
    requires { taken ≤ SIZE_LIMIT }
    ensures some { 1 ≤ result }
    ensures piece { result ≤ PIECE }
    ensures within { taken + result ≤ SIZE_LIMIT + 1 }
{
    (SIZE_LIMIT - taken).min(PIECE - 1) + 1
}

// A reader that was fed what is left of the selected file, to its end.
fn fed_reader<S: Shelf>(alloc: Global, shelf: &mut S) -> Result<SocReader, Stop>
    requires { IsTrue (S.seen shelf.old).selected }
    ensures fed { IfOk result (λ reader. StandsForRest reader (S.seen shelf.old).rest) }
    ensures stops { IfErr result (λ stop. AnswersRest (S.seen shelf.old).rest
        (Faulted (S.seen shelf.old) (S.seen shelf.new)) (Err stop)) }
    ensures taken { TakesPieces (S.seen shelf.old).rest (S.seen shelf.new).rest }
    ensures selected { IsTrue (S.seen shelf.new).selected }
    ensures reads_on { ReadsOn (S.seen shelf.old) (S.seen shelf.new) }
    ensures later { IsLater (S.seen shelf.old) (S.seen shelf.new) }
{
    let mut reader = SocReader::new(alloc);
    let mut piece = [0u8; PIECE];
    let mut taken = 0usize;
    while taken <= SIZE_LIMIT {
        let room = room_after(taken);
        let Ok(count) = shelf.read(&mut piece[..room]) else {
            return Err(Stop::ReadFault);
        };
        if count == 0 {
            return Ok(reader);
        }
        if let Err(error) = reader.feed(&piece[..count]) {
            return Err(stop_of(error));
        }
        taken += count;
    }
    unreachable!()
}

// What a reader says that was fed its file to the end.
fn finish(reader: SocReader) -> Result<SocFile, Stop>
    ensures { (bytes : List ℕ) → reader ≡ stands bytes → Finishes bytes result }
{
    match reader.finish() {
        Ok(file) => Ok(file),
        Err(SocError::Fault(fault)) => Err(Stop::ProfileRefused(fault)),
        Err(SocError::Memory) => Err(Stop::Memory),
    }
}

// The profile and the names of the selected file, from what is left of it.
fn selected_profile<S: Shelf>(alloc: Global, shelf: &mut S) -> Result<SocFile, Stop>
    requires { IsTrue (S.seen shelf.old).selected }
    ensures answers { AnswersRest (S.seen shelf.old).rest (Faulted (S.seen shelf.old) (S.seen shelf.new)) result }
    ensures taken { TakesPieces (S.seen shelf.old).rest (S.seen shelf.new).rest }
    ensures selected { IsTrue (S.seen shelf.new).selected }
    ensures reads_on { ReadsOn (S.seen shelf.old) (S.seen shelf.new) }
    ensures later { IsLater (S.seen shelf.old) (S.seen shelf.new) }
{
    let reader = fed_reader(alloc, shelf)?;
    finish(reader)
}

/// The profile and the names of a file. It is read in pieces, each of which is fed to the reader of
/// profiles, to the end of the file or to its first fault: behind the piece that settles that, nothing is read.
pub fn profile_file<S: Shelf>(alloc: Global, shelf: &mut S, name: &str) -> Result<SocFile, Stop>
    ensures reads { ReadsFile profiles (λ f x. f ≡ x) name.now (S.seen shelf.old) (S.seen shelf.new) result }
    ensures stops { StopsAtFault (S.seen shelf.new) name.now }
{
    match shelf.select(name) {
        Ok(()) => selected_profile(alloc, shelf),
        Err(_) => Err(Stop::ReadFault),
    }
}
