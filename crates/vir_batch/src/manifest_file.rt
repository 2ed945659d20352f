// A manifest, read whole and judged.
ghost use Rattle.std.specs.Prelude.{◌≡◌, ℕ};
ghost use Rattle.vir_batch.specs.Batches.{manifest_at};
ghost use Rattle.vir_batch.specs.Manifest.{manifest_of};
ghost use Rattle.vir_files.specs.Judges.{Judges};
ghost use Rattle.vir_files.specs.Performs.{AsksFirst, Performs};
ghost use Rattle.vir_machine.specs.Runs.{BenchView};

use crate::file_names::FileNames;
use crate::manifest::{MANIFEST_LIMIT, read_manifest};
use std::alloc::Global;
use vir_course::Stop;
use vir_files::text;
use vir_outside::Shelf;
use vir_read::TextError;

// The names that a text lists.
fn judge(alloc: Global, text: &[u8]) -> Result<FileNames, Stop>
    ensures { Judges (λ names. names) (manifest_of text.now) result }
{
    match read_manifest(alloc, text) {
        Ok(names) => Ok(names),
        Err(TextError::Fault(fault)) => Err(Stop::TextRefused(fault)),
        Err(TextError::Memory) => Err(Stop::Memory),
    }
}

/// The names that a manifest lists. No bench is touched.
pub fn manifest_file<S: Shelf>(alloc: Global, shelf: &mut S, name: &str) -> Result<FileNames, Stop>
    ensures performs { (place : ℕ) (bench : BenchView)
        → Performs (λ contents. manifest_at contents place name.now) (λ names x. names ≡ x)
        S.seen shelf.old shelf.new bench bench result }
    ensures asks { AsksFirst (S.seen shelf.old) (S.seen shelf.new) name.now }
{
    let text = text(alloc, shelf, name, MANIFEST_LIMIT)?;
    judge(alloc, &text)
}
