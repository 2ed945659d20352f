// A sink in memory, which tells everything and fails at listed calls.
ghost use Rattle.std.specs.Prelude.{◌≡◌, ◌≤◌, [], ◌∷◌, ◌++◌, length, take, min};
ghost use Rattle.std.specs.Prelude.{IsTrue, IsErr, IfOk, OnOk, OnErr, Some};
ghost use Rattle.std.specs.Io.{WritesAtMost};
ghost use Rattle.std.specs.Io.KnownBytes.{WriteAppends};
ghost use Rattle.vir_outside.specs.Faults.{HasCause, one_more};
ghost use Rattle.vir_outside.specs.Memory.{is_next_listed, sink_seen};
ghost use Rattle.vir_outside.specs.Shelf.{moved, to_write};
ghost use Rattle.vir_outside.specs.Sink.{TakesSome};

use crate::counted::count_call;
use crate::trail::Trail;
use crate::{Failed, Sink};
use std::alloc::{AllocError, Global};
use std::marker::Model;

/// A sink in memory, which tells everything.
///
/// Its writes are numbered from 1, and those that are listed fail. Any other write fails only for
/// want of memory, which it counts as a fault too.
#[derive(Drop)]
pub struct MemorySink {
    most: usize,
    failing: Vec<u64>,
    calls: u64,
    faults: u64,
    bytes: Vec<u8>,
    trail: Trail,
}

impl Model for MemorySink {
    ghost use Rattle.std.specs.Prelude.{◌≤◌};
    ghost use Rattle.vir_outside.specs.Memory.{SinkState};

    ghost Value = { SinkState };

    ghost view = { λ s. record {
      most = s.most;
      failing = s.failing.items;
      calls = s.calls;
      faults = s.faults;
      bytes = s.bytes.items;
      asked = s.trail.requests;
    } };

    ghost invariant = { λ s. 1 ≤ s.most };
}

impl MemorySink {
    /// An empty sink with no listed call and no fault. A write takes at most `most` bytes.
    pub fn new(alloc: Global, most: usize) -> MemorySink
        requires { 1 ≤ most }
        ensures { result ≡ record { most = most; failing = []; calls = 0; faults = 0; bytes = []; asked = [] } }
    {
        MemorySink {
            most,
            failing: Vec::new(alloc),
            calls: 0,
            faults: 0,
            bytes: Vec::new(alloc),
            trail: Trail::new(),
        }
    }

    /// Lists the write of this number as failing. The number of a write that was made already, and 0,
    /// make no write fail.
    pub fn fail_at(&mut self, call: u64) -> Result<(), AllocError>
        ensures ok { OnOk result (self.new ≡ record self.old { failing = self.old.failing ++ call ∷ [] }) }
        ensures err { OnErr result (self.new ≡ self.old) }
    {
        self.failing.push(call)?;
        Ok(())
    }

    /// What was written so far.
    pub fn bytes(&self) -> &[u8]
        ensures { result.now ≡ self.now.bytes }
    {
        &self.bytes
    }

    /// How many writes failed so far.
    pub fn faults(&self) -> u64
        ensures { result ≡ self.now.faults }
    {
        self.faults
    }

    /// The number of writes made so far, those that failed too.
    pub fn calls(&self) -> u64
        ensures { result ≡ self.now.calls }
    {
        self.calls
    }
}

impl Sink for MemorySink {
    ghost seen = { λ s. sink_seen s };

    fn write(&mut self, piece: &[u8]) -> Result<usize, Failed>
        ensures bound { WritesAtMost result piece.now }
        ensures some { TakesSome result piece.now }
        ensures asked { self.new.asked ≡ to_write (length piece.now) (moved result) ∷ self.old.asked }
        ensures bytes { WriteAppends (Some self.old.bytes) (Some self.new.bytes) result piece.now }
        ensures cause { HasCause self.old.faults self.new.faults result }

        // A listed call fails. Whether another one wants memory is open.
        ensures listed { IsTrue (is_next_listed self.old.failing self.old.calls) → IsErr result }
        ensures count { IfOk result (λ n. n ≡ min self.old.most (length piece.now)) }
        ensures ok { IfOk result (λ n. self.new ≡ record self.old {
          calls = one_more self.old.calls;
          bytes = self.old.bytes ++ take n piece.now;
          asked = to_write (length piece.now) n ∷ self.old.asked;
        }) }
        ensures err { OnErr result (self.new ≡ record self.old {
          calls = one_more self.old.calls;
          faults = one_more self.old.faults;
          asked = to_write (length piece.now) 0 ∷ self.old.asked;
        }) }
    {
        if count_call(&self.failing, &mut self.calls, &mut self.faults) {
            self.trail = Trail::writing(&self.trail, piece, &[]);
            return Err(Failed);
        }
        let count = piece.len().min(self.most);
        if self.bytes.extend_from_slice(&piece[..count]).is_err() {
            self.faults = self.faults.saturating_add(1);
            self.trail = Trail::writing(&self.trail, piece, &[]);
            return Err(Failed);
        }
        self.trail = Trail::writing(&self.trail, piece, &piece[..count]);
        Ok(count)
    }
}
