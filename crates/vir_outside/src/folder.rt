// The files of the current folder, as a shelf that tells nothing of content.
ghost use Rattle.std.specs.Prelude.{◌≡◌, ◌⊎◌, [], ◌∷◌, None, IsTrue, OnOk, OnErr, false};
ghost use Rattle.std.specs.Io.{ReadsAtMost};
ghost use Rattle.std.specs.Io.KnownBytes.{ReadConsumes};
ghost use Rattle.vir_outside.specs.Adapters.{folder_seen};
ghost use Rattle.vir_outside.specs.Faults.{count_after};
ghost use Rattle.vir_outside.specs.Shelf.{Faulted, IsLater, Lacks, Selects, moved, to_read, to_select};

use crate::trail::Trail;
use crate::{Failed, Shelf};
use std::fs;
use std::io::Read;
use std::marker::Model;
use std::rt::Files;

/// The files of the current folder. As a shelf it tells nothing of what they hold; its own contract
/// passes on what an opened file says of its bytes.
///
/// A file that isn't there, one that can't be opened and a read that fails are each a fault.
#[derive(Drop)]
pub struct FolderShelf<'a, R: Files> {
    rt: &'a R,
    file: Option<R::File>,
    faults: u64,
    trail: Trail,
}

impl<'a, R: Files> Model for FolderShelf<'a, R> {
    ghost use Rattle.std.specs.Prelude.{is_some, option_and_then};
    ghost use Rattle.vir_outside.specs.Adapters.{FolderState};

    ghost Value = { FolderState };

    ghost view = { λ s. record {
      selected = is_some s.file;
      left = option_and_then R.File.remaining s.file;
      faults = s.faults;
      asked = s.trail.requests;
    } };
}

impl<'a, R: Files> FolderShelf<'a, R> {
    /// A shelf with nothing selected and no fault.
    pub fn new(rt: &'a R) -> FolderShelf<'a, R>
        ensures { result ≡ record { selected = false; left = None; faults = 0; asked = [] } }
    {
        FolderShelf {
            rt,
            file: None,
            faults: 0,
            trail: Trail::new(),
        }
    }
}

impl<'a, R: Files> Shelf for FolderShelf<'a, R> {
    ghost seen = { λ s. folder_seen s };

    fn select(&mut self, name: &str) -> Result<(), Failed>
        ensures asked { self.new.asked ≡ to_select name.now self.old.faults ∷ self.old.asked }
        ensures selected { OnOk result (IsTrue self.new.selected) }
        ensures content { OnOk result (Selects None name.now None) }
        ensures none_selected { OnErr result (self.new.selected ≡ false) }
        ensures failed { OnErr result (Faulted (folder_seen self.old) (folder_seen self.new) ⊎ Lacks None name.now) }
        ensures later { IsLater (folder_seen self.old) (folder_seen self.new) }

        // Each failure counts once.
        ensures count { self.new.faults ≡ count_after self.old.faults result }
    {
        self.trail = Trail::selecting(&self.trail, name.as_bytes(), &self.faults);
        self.file = None;
        match fs::open(self.rt, name) {
            Ok(file) => {
                self.file = Some(file);
                Ok(())
            }
            Err(_) => {
                self.faults = self.faults.saturating_add(1);
                Err(Failed)
            }
        }
    }

    fn read(&mut self, buf: &mut [u8]) -> Result<usize, Failed>
        requires { IsTrue self.old.selected }
        ensures bound { ReadsAtMost result buf.new }
        ensures bytes { ReadConsumes None None result buf.new }
        ensures selected { IsTrue self.new.selected }
        ensures asked { self.new.asked ≡ to_read (moved result) ∷ self.old.asked }
        ensures failed { OnErr result (Faulted (folder_seen self.old) (folder_seen self.new)) }
        ensures later { IsLater (folder_seen self.old) (folder_seen self.new) }

        // What the file says is left of it loses what was given, and each failure counts once.
        ensures left { ReadConsumes self.old.left self.new.left result buf.new }
        ensures count { self.new.faults ≡ count_after self.old.faults result }
    {
        match &mut self.file {
            Some(file) => match file.read(buf) {
                Ok(count) => {
                    self.trail = Trail::reading(&self.trail, &buf[..count]);
                    Ok(count)
                }
                Err(_) => {
                    self.trail = Trail::reading(&self.trail, &[]);
                    self.faults = self.faults.saturating_add(1);
                    Err(Failed)
                }
            },
            None => unreachable!(),
        }
    }
}
