// A shelf in memory, which tells everything and fails at listed calls.
ghost use Rattle.std.specs.Prelude.{◌≡◌, ◌⊎◌, ◌&&◌, [], ◌∷◌, ◌++◌, length, take, drop, min, not, false};
ghost use Rattle.std.specs.Prelude.{None, Some, IsTrue, is_some, is_ok, IfOk, IfSome, OnOk, OnErr};
ghost use Rattle.std.specs.Io.{ReadsAtMost};
ghost use Rattle.std.specs.Io.KnownBytes.{Consumes, ReadConsumes};
ghost use Rattle.std.specs.Option.{option_map};
ghost use Rattle.vir_outside.specs.Memory.{after_select, after_read, is_next_listed, memory_seen};
ghost use Rattle.vir_outside.specs.Shelf.{Faulted, IsLater, Lacks, Selects, content_of, moved, to_read, to_select};

use crate::counted::count_call;
use crate::stored::{StoredFile, copy_front, left_at, place_of};
use crate::trail::Trail;
use crate::{Failed, Shelf};
use std::alloc::{AllocError, Global};
use std::marker::Model;

/// A shelf in memory, which tells everything.
///
/// Its calls of `select` and `read` are numbered together from 1, and those that are listed fail.
/// No other `read` fails, and any other `select` only at an unknown name, which is no fault.
#[derive(Drop)]
pub struct MemoryShelf {
    alloc: Global,
    files: Vec<StoredFile>,
    failing: Vec<u64>,
    calls: u64,
    faults: u64,
    chosen: Option<usize>,
    taken: usize,
    trail: Trail,
}

impl Model for MemoryShelf {
    ghost use Rattle.std.specs.Prelude.{◌≡◌, is_some};
    ghost use Rattle.vir_outside.specs.Memory.{ShelfState, rest_at};

    ghost Value = { ShelfState };

    ghost view = { λ s. record {
      files = s.files.items;
      failing = s.failing.items;
      calls = s.calls;
      faults = s.faults;
      asked = s.trail.requests;
      rest = rest_at s.files.items s.chosen s.taken;
    } };

    ghost invariant = { λ s. is_some s.chosen ≡ is_some (rest_at s.files.items s.chosen s.taken) };
}

impl MemoryShelf {
    /// A shelf with no file, no listed call, no fault and nothing selected.
    pub fn new(alloc: Global) -> MemoryShelf
        ensures { result ≡ record { files = []; failing = []; calls = 0; faults = 0; asked = []; rest = None } }
    {
        MemoryShelf {
            alloc,
            files: Vec::new(alloc),
            failing: Vec::new(alloc),
            calls: 0,
            faults: 0,
            chosen: None,
            taken: 0,
            trail: Trail::new(),
        }
    }

    /// Appends a file. Where its name is there already, the first of that name is meant as before.
    pub fn put(&mut self, name: &str, content: &[u8]) -> Result<(), AllocError>
        ensures ok { OnOk result
            (self.new ≡ record self.old { files = self.old.files ++ (name.now, content.now) ∷ [] }) }
        ensures err { OnErr result (self.new ≡ self.old) }
    {
        let file = StoredFile {
            name: name.to_string(self.alloc)?,
            content: content.to_vec(self.alloc)?,
        };
        self.files.push(file)?;
        Ok(())
    }

    /// Lists the call of this number as failing. The number of a call that was made already, and 0,
    /// make no call fail.
    pub fn fail_at(&mut self, call: u64) -> Result<(), AllocError>
        ensures ok { OnOk result (self.new ≡ record self.old { failing = self.old.failing ++ call ∷ [] }) }
        ensures err { OnErr result (self.new ≡ self.old) }
    {
        self.failing.push(call)?;
        Ok(())
    }

    /// The number of calls of `select` and `read` made so far, those that failed too.
    pub fn calls(&self) -> u64
        ensures { result ≡ self.now.calls }
    {
        self.calls
    }

    // Takes all that is left and fits. Says how much.
    fn take_front(&mut self, buf: &mut [u8]) -> usize
        requires { IsTrue (is_some self.old.rest) }
        ensures count { IfSome self.old.rest (λ left. result ≡ min (length buf.old) (length left)) }
        ensures bytes { Consumes self.old.rest self.new.rest (take result buf.new) }
        ensures taken { self.new ≡ record self.old { rest = option_map (drop (length buf.old)) self.old.rest } }
    {
        match self.chosen {
            Some(place) => {
                let count = copy_front(buf, left_at(&self.files, place, self.taken));
                self.taken += count;
                count
            }
            None => unreachable!(),
        }
    }
}

impl Shelf for MemoryShelf {
    ghost seen = { λ s. memory_seen s };

    fn select(&mut self, name: &str) -> Result<(), Failed>
        ensures asked { self.new.asked ≡ to_select name.now self.old.faults ∷ self.old.asked }
        ensures selected { OnOk result (IsTrue (is_some self.new.rest)) }
        ensures content { OnOk result (Selects (Some self.old.files) name.now self.new.rest) }
        ensures none_selected { OnErr result (is_some self.new.rest ≡ false) }
        ensures failed { OnErr result
            (Faulted (memory_seen self.old) (memory_seen self.new) ⊎ Lacks (Some self.old.files) name.now) }
        ensures later { IsLater (memory_seen self.old) (memory_seen self.new) }

        // Only a listed call and an unknown name fail.
        ensures answer { is_ok result
            ≡ (not (is_next_listed self.old.failing self.old.calls) && is_some (content_of self.old.files name.now)) }
        ensures exactly { self.new ≡ after_select self.old name.now }
    {
        self.trail = Trail::selecting(&self.trail, name.as_bytes(), &self.faults);
        self.chosen = None;
        if count_call(&self.failing, &mut self.calls, &mut self.faults) {
            return Err(Failed);
        }
        self.chosen = place_of(&self.files, name);
        self.taken = 0;
        if self.chosen.is_some() {
            Ok(())
        } else {
            Err(Failed)
        }
    }

    fn read(&mut self, buf: &mut [u8]) -> Result<usize, Failed>
        requires { IsTrue (is_some self.old.rest) }
        ensures bound { ReadsAtMost result buf.new }
        ensures bytes { ReadConsumes self.old.rest self.new.rest result buf.new }
        ensures selected { IsTrue (is_some self.new.rest) }
        ensures asked { self.new.asked ≡ to_read (moved result) ∷ self.old.asked }
        ensures failed { OnErr result (Faulted (memory_seen self.old) (memory_seen self.new)) }
        ensures later { IsLater (memory_seen self.old) (memory_seen self.new) }

        // Only a listed call fails, and any other gives all that is left and fits.
        ensures answer { is_ok result ≡ not (is_next_listed self.old.failing self.old.calls) }
        ensures count { IfOk result (λ n. IfSome self.old.rest (λ bytes. n ≡ min (length buf.old) (length bytes))) }
        ensures exactly { self.new ≡ after_read self.old (length buf.old) (moved result) }
    {
        if count_call(&self.failing, &mut self.calls, &mut self.faults) {
            self.trail = Trail::reading(&self.trail, &[]);
            return Err(Failed);
        }
        let count = self.take_front(buf);
        self.trail = Trail::reading(&self.trail, &buf[..count]);
        Ok(count)
    }
}
