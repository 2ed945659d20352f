// A writer of the standard library, as a sink that tells nothing of content.
ghost use Rattle.std.specs.Prelude.{◌≡◌, [], ◌∷◌, None, length};
ghost use Rattle.std.specs.Io.{WritesAtMost};
ghost use Rattle.std.specs.Io.KnownBytes.{WriteAppends};
ghost use Rattle.vir_outside.specs.Adapters.{stream_seen};
ghost use Rattle.vir_outside.specs.Faults.{HasCause, count_after};
ghost use Rattle.vir_outside.specs.Shelf.{moved, to_write};
ghost use Rattle.vir_outside.specs.Sink.{TakesSome};

use crate::trail::Trail;
use crate::{Failed, Sink};
use std::io::Write;
use std::marker::Model;

/// A writer of the standard library. As a sink it tells nothing of what was written; its own contract
/// passes on what the writer says of the bytes that it holds.
///
/// A write that fails, and one that takes nothing of a piece that isn't empty, are each a fault.
#[derive(Drop)]
pub struct StreamSink<W: Write> {
    writer: W,
    faults: u64,
    trail: Trail,
}

impl<W: Write> Model for StreamSink<W> {
    ghost use Rattle.vir_outside.specs.Adapters.{StreamState};

    ghost Value = { StreamState };

    ghost view = { λ s. record {
      held = W.contents s.writer;
      faults = s.faults;
      asked = s.trail.requests;
    } };
}

impl<W: Write> StreamSink<W> {
    /// A sink with no fault.
    pub fn new(writer: W) -> StreamSink<W>
        ensures { result ≡ record { held = W.contents writer; faults = 0; asked = [] } }
    {
        StreamSink {
            writer,
            faults: 0,
            trail: Trail::new(),
        }
    }
}

impl<W: Write> Sink for StreamSink<W> {
    ghost seen = { λ s. stream_seen s };

    fn write(&mut self, piece: &[u8]) -> Result<usize, Failed>
        ensures bound { WritesAtMost result piece.now }
        ensures some { TakesSome result piece.now }
        ensures asked { self.new.asked ≡ to_write (length piece.now) (moved result) ∷ self.old.asked }
        ensures bytes { WriteAppends None None result piece.now }
        ensures cause { HasCause self.old.faults self.new.faults result }

        // What the writer says it holds grows by what was taken, and each failure counts once.
        ensures held { WriteAppends self.old.held self.new.held result piece.now }
        ensures count { self.new.faults ≡ count_after self.old.faults result }
    {
        match self.writer.write(piece) {
            Ok(count) if count > 0 || piece.is_empty() => {
                self.trail = Trail::writing(&self.trail, piece, &piece[..count]);
                Ok(count)
            }
            _ => {
                self.trail = Trail::writing(&self.trail, piece, &[]);
                self.faults = self.faults.saturating_add(1);
                Err(Failed)
            }
        }
    }
}
