// A shelf of files, of which one at a time is selected and read from its front.
ghost use Rattle.std.specs.Prelude.{◌≡◌, ◌⊎◌, ◌∷◌, false, IsTrue, OnOk, OnErr};
ghost use Rattle.std.specs.Io.{ReadsAtMost};
ghost use Rattle.std.specs.Io.KnownBytes.{ReadConsumes};
ghost use Rattle.vir_outside.specs.Shelf.{Faulted, IsLater, Lacks, Selects, ShelfView, moved, to_read, to_select};

use thiserror::Error;

/// A call of a shelf or a sink failed. Why isn't told.
#[derive(Clone, Copy, Debug, PartialEq, Eq, Error)]
#[error("a read or a write failed")]
pub struct Failed;

/// Files that are selected by their names, one at a time, and read from their front.
///
/// A shelf may tell its files and what is left of the selected one, as one in memory does. One that
/// doesn't tell them counts a missing name as a fault.
pub trait Shelf {
    /// What is seen of it: its files, its faults, what it was asked for, and the selected file.
    ghost seen: { Self → ShelfView };

    /// Selects the file of this name, to be read from its front. No file is selected after a failure.
    fn select(&mut self, name: &str) -> Result<(), Failed>
        ensures asked { (seen self.new).asked ≡ to_select name.now (seen self.old).faults ∷ (seen self.old).asked }
        ensures selected { OnOk result (IsTrue (seen self.new).selected) }
        ensures content { OnOk result (Selects (seen self.old).files name.now (seen self.new).rest) }
        ensures none_selected { OnErr result ((seen self.new).selected ≡ false) }
        ensures failed { OnErr result
            (Faulted (seen self.old) (seen self.new) ⊎ Lacks (seen self.old).files name.now) }
        ensures later { IsLater (seen self.old) (seen self.new) };

    /// Reads the front of what is left into `buf`, and says how many bytes it took and gave. Into a
    /// buffer that isn't empty it gives none only at the end of the file. A failed read takes nothing.
    fn read(&mut self, buf: &mut [u8]) -> Result<usize, Failed>
        requires { IsTrue (seen self.old).selected }
        ensures bound { ReadsAtMost result buf.new }
        ensures bytes { ReadConsumes (seen self.old).rest (seen self.new).rest result buf.new }
        ensures selected { IsTrue (seen self.new).selected }
        ensures asked { (seen self.new).asked ≡ to_read (moved result) ∷ (seen self.old).asked }
        ensures failed { OnErr result (Faulted (seen self.old) (seen self.new)) }
        ensures later { IsLater (seen self.old) (seen self.new) };
}
