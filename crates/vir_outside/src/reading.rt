// A whole file, read from a shelf.
ghost use Rattle.std.specs.Prelude.{◌≡◌, ◌⊎◌, ◌+◌, ◌<◌, ◌≤◌, ℕ, List, length};
ghost use Rattle.std.specs.Prelude.{IsTrue, IsOk, IfOk, IfSome, IsErrOf};
ghost use Rattle.std.specs.Io.KnownBytes.{Consumes};
ghost use Rattle.vir_outside.specs.Shelf.{AsksFor, Faulted, IsContent, IsLater, IsLonger, Lacks, ReadsOn};
ghost use Rattle.vir_outside.specs.Shelf.{TakesAtMost, told_content};

use crate::Shelf;
use std::alloc::Global;
use thiserror::Error;

/// Why a file wasn't read to its end.
#[derive(Clone, Copy, Debug, PartialEq, Eq, Error)]
pub enum ReadStop {
    /// The shelf failed, or has no file of the name.
    #[error("the file can't be read")]
    Fault,
    /// The file has more bytes than the limit.
    #[error("the file is too long")]
    TooLong,
    /// There is no memory for its bytes.
    #[error("no memory is left for the file")]
    Memory,
}

// How many bytes are read at a time.
const PIECE: usize = 4096;

/// The bytes of the file of this name, read to its end, where there are at most `limit`.
///
/// Whatever it answers, at most one byte more than `limit` is taken from the file. A file is selected
/// afterwards, unless it answers `ReadStop::Fault`. `ReadStop::Memory` is want of memory, which can
/// come at any file but one that is told to be missing.
pub fn read_whole<S: Shelf>(
    alloc: Global,
    shelf: &mut S,
    name: &str,
    limit: usize,
) -> Result<Vec<u8>, ReadStop>
    ensures content { IfOk result (λ bytes. IsContent (S.seen shelf.old).files name.now bytes.items) }
    ensures within { IfOk result (λ bytes. length bytes.items ≤ limit) }
    ensures fault { IsErrOf result ReadStop.Fault
        → Faulted (S.seen shelf.old) (S.seen shelf.new) ⊎ Lacks (S.seen shelf.old).files name.now }
    ensures too_long { IsErrOf result ReadStop.TooLong → IsLonger (S.seen shelf.old).files name.now limit }

    // Where the files are told, the name decides the answer, unless a count rose or memory is wanted.
    ensures missing { Lacks (S.seen shelf.old).files name.now → IsErrOf result ReadStop.Fault }
    ensures longer { IfSome (told_content (S.seen shelf.old).files name.now) (λ bytes. limit < length bytes
        → IsErrOf result ReadStop.TooLong ⊎ Faulted (S.seen shelf.old) (S.seen shelf.new)
        ⊎ IsErrOf result ReadStop.Memory) }
    ensures completes { IfSome (told_content (S.seen shelf.old).files name.now) (λ bytes. length bytes ≤ limit
        → IsOk result ⊎ Faulted (S.seen shelf.old) (S.seen shelf.new) ⊎ IsErrOf result ReadStop.Memory) }

    // What the call leaves.
    ensures selected { IsErrOf result ReadStop.Fault ⊎ IsTrue (S.seen shelf.new).selected }
    ensures taken { TakesAtMost (S.seen shelf.new) name.now (limit + 1) }
    ensures asked { AsksFor (S.seen shelf.old) (S.seen shelf.new) name.now }
    ensures later { IsLater (S.seen shelf.old) (S.seen shelf.new) }
{
    shelf.select(name).map_err(|_| ReadStop::Fault)?;
    read_selected(alloc, shelf, limit)
}

// How many bytes are asked for where so many more are within the limit: one past it tells that there
// are more.
fn room_for(left: usize) -> usize
    ensures some { 1 ≤ result }
    ensures one_past { result ≤ left + 1 }
    ensures piece { result ≤ PIECE }
{
    left.min(PIECE - 1) + 1
}

// The bytes that are left of the selected file, read to its end.
fn read_selected<S: Shelf>(alloc: Global, shelf: &mut S, limit: usize) -> Result<Vec<u8>, ReadStop>
    requires { IsTrue (S.seen shelf.old).selected }
    ensures content { IfOk result (λ bytes. IfSome (S.seen shelf.old).rest (λ rest. rest ≡ bytes.items)) }
    ensures within { IfOk result (λ bytes. length bytes.items ≤ limit) }
    ensures fault { IsErrOf result ReadStop.Fault → Faulted (S.seen shelf.old) (S.seen shelf.new) }
    ensures too_long { IsErrOf result ReadStop.TooLong → IfSome (S.seen shelf.old).rest (λ rest. limit < length rest) }
    ensures taken { (bytes : List ℕ) × (length bytes ≤ limit + 1)
        × Consumes (S.seen shelf.old).rest (S.seen shelf.new).rest bytes }
    ensures selected { IsTrue (S.seen shelf.new).selected }
    ensures asked { ReadsOn (S.seen shelf.old) (S.seen shelf.new) }
    ensures later { IsLater (S.seen shelf.old) (S.seen shelf.new) }
{
    let mut whole = Vec::new(alloc);
    loop {
        let mut piece = [0u8; PIECE];
        let room = room_for(limit - whole.len());
        let Ok(count) = shelf.read(&mut piece[..room]) else {
            return Err(ReadStop::Fault);
        };
        if count == 0 {
            return Ok(whole);
        }
        if count > limit - whole.len() {
            return Err(ReadStop::TooLong);
        }
        if whole.extend_from_slice(&piece[..count]).is_err() {
            return Err(ReadStop::Memory);
        }
    }
}
