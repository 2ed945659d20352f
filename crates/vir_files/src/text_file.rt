// A text of the language, read whole.
ghost use Rattle.vir_files.specs.Judges.{texts};
ghost use Rattle.vir_files.specs.Performs.{ReadsFile};
ghost use Rattle.vir_files.specs.Values.{SeesText};

use std::alloc::Global;
use vir_course::Stop;
use vir_outside::{ReadStop, Shelf, read_whole};
use vir_read::{TextFault, TextKind};

/// The text of a file. That it has more than `limit` bytes is a fault of the text, at the limit.
pub fn text_file<S: Shelf>(
    alloc: Global,
    shelf: &mut S,
    name: &str,
    limit: usize,
) -> Result<Vec<u8>, Stop>
    ensures { ReadsFile (texts limit) SeesText name.now (S.seen shelf.old) (S.seen shelf.new) result }
{
    match read_whole(alloc, shelf, name, limit) {
        Ok(text) => Ok(text),
        Err(ReadStop::Fault) => Err(Stop::ReadFault),
        Err(ReadStop::TooLong) => Err(Stop::TextRefused(TextFault {
            kind: TextKind::TextTooLong,
            at: limit,
        })),
        Err(ReadStop::Memory) => Err(Stop::Memory),
    }
}
