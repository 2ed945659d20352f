// Where a program writes.
ghost use Rattle.std.specs.Prelude.{◌≡◌, ◌∷◌, length};
ghost use Rattle.std.specs.Io.{WritesAtMost};
ghost use Rattle.std.specs.Io.KnownBytes.{WriteAppends};
ghost use Rattle.vir_outside.specs.Faults.{HasCause};
ghost use Rattle.vir_outside.specs.Shelf.{moved, to_write};
ghost use Rattle.vir_outside.specs.Sink.{SinkView, TakesSome};

use crate::Failed;

/// Where bytes are written to, one piece after another.
pub trait Sink {
    /// What is seen of it: its faults, the bytes written, and what it was asked for.
    ghost seen: { Self → SinkView };

    /// Appends the front of the piece, and says how many bytes of it. Of a piece that isn't empty it
    /// takes one at least. A failed write appends nothing.
    fn write(&mut self, piece: &[u8]) -> Result<usize, Failed>
        ensures bound { WritesAtMost result piece.now }
        ensures some { TakesSome result piece.now }
        ensures asked { (seen self.new).asked ≡ to_write (length piece.now) (moved result) ∷ (seen self.old).asked }
        ensures bytes { WriteAppends (seen self.old).written (seen self.new).written result piece.now }
        ensures cause { HasCause (seen self.old).faults (seen self.new).faults result };
}
