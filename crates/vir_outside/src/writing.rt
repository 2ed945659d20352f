// A whole text, written to a sink.
ghost use Rattle.std.specs.Prelude.{◌≡◌, [], length};
ghost use Rattle.vir_outside.specs.Sink.{HandsAll, Writes};

use crate::{Failed, Sink};

/// Writes the whole text.
///
/// Each write is given all of the text that isn't written yet, and none is given an empty piece.
/// After a failed write no other is made, and what was written before it stays.
pub fn write_whole<W: Sink>(sink: &mut W, text: &[u8]) -> Result<(), Failed>
    ensures writes { Writes (W.seen sink.old) (W.seen sink.new) text.now result }
    ensures hands { HandsAll result (W.seen sink.old).asked (W.seen sink.new).asked (length text.now) }
    ensures no_text { text.now ≡ [] → sink.new ≡ sink.old }
{
    let mut left = text;
    while !left.is_empty() {
        let count = sink.write(left)?;
        left = &left[count..];
    }
    Ok(())
}
