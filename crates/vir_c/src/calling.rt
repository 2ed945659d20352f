// A call with words and files that are handed in whole.
ghost use Rattle.std.specs.Prelude.{◌≡◌, Err, IfErr, IfOk, OnOk};
ghost use Rattle.vir_c.specs.Answered.{AreText, IsAnswered};
ghost use Rattle.vir_c.specs.Pieces.{files_of, pieces};
ghost use Rattle.vir_c.specs.declared.pieces.Unread.TheVariants.{Memory, NotText};

use crate::FileSizes;
use crate::pieces::{Unread, shelf_of, words_of};
use crate::sure_shelf::SureShelf;
use std::alloc::Global;
use vir_bench::call_on_full_bench;
use vir_outside::MemorySink;

/// The status of a call, and what it wrote.
#[derive(Drop)]
pub struct Called {
    pub status: u8,
    pub out: MemorySink,
    pub err: MemorySink,
}

// What a call came to; where there was no memory for its line, that is told instead, with no line. Behind a text that
// was cut off the line may be cut off too.
fn unless_cut(status: u8, out: MemorySink, err: MemorySink) -> Result<Called, Unread>
    ensures called { IfOk result (λ called. called ≡ record { status = status; out = out; err = err }) }
    ensures whole { OnOk result (out.faults ≡ 0 → err.faults ≡ 0) }
    ensures memory { IfErr result (λ reason. reason ≡ Memory) }
{
    if out.faults() == 0 && err.faults() > 0 {
        return Err(Unread::Memory);
    }
    Ok(Called { status, out, err })
}

/// Answers the words of these sizes with the files of these sizes.
pub fn call(
    alloc: Global,
    word_sizes: &[usize],
    words: &[u8],
    file_sizes: &[FileSizes],
    files: &[u8],
) -> Result<Called, Unread>
    ensures answered { IfOk result (λ called. IsAnswered (pieces word_sizes.now words.now)
        (files_of file_sizes.now files.now) called.status called.out.bytes called.err.bytes) }
    ensures not_text { result ≡ Err NotText → AreText (pieces word_sizes.now words.now)
        (files_of file_sizes.now files.now) → ⊥ }
{
    let words = words_of(alloc, word_sizes, words)?;
    let mut shelf = SureShelf::new(shelf_of(alloc, file_sizes, files)?);
    let mut out = MemorySink::new(alloc, usize::MAX);
    let mut err = MemorySink::new(alloc, usize::MAX);
    match call_on_full_bench(alloc, &words, &mut shelf, &mut out, &mut err) {
        Ok(status) => unless_cut(status, out, err),
        Err(_) => Err(Unread::Memory),
    }
}
