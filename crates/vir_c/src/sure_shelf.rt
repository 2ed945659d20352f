// A shelf in memory that never fails.
ghost use Rattle.std.specs.Prelude.{◌≡◌, ◌⊎◌, ◌∷◌, [], false, IsTrue, OnErr, OnOk};
ghost use Rattle.std.specs.Io.{ReadsAtMost};
ghost use Rattle.std.specs.Io.KnownBytes.{ReadConsumes};
ghost use Rattle.vir_outside.specs.Shelf.{Faulted, IsLater, Lacks, Selects, moved, to_read, to_select};
ghost use Rattle.vir_c.specs.Sure.{sure_seen};

use vir_outside::{Failed, MemoryShelf, Shelf};

/// A shelf in memory none of whose calls is listed as failing. It counts no fault: `select` fails only at a
/// name that no file has, and `read` never.
#[derive(Drop)]
pub struct SureShelf {
    inner: MemoryShelf,
    ghost sure: { inner.failing ≡ [] },
    ghost faultless: { inner.faults ≡ 0 },
}

impl SureShelf {
    /// This shelf, which has no listed call and has counted no fault.
    pub fn new(inner: MemoryShelf) -> SureShelf
        requires sure { inner.failing ≡ [] }
        requires faultless { inner.faults ≡ 0 }
        ensures { result.inner ≡ inner }
    {
        SureShelf { inner }
    }
}

impl Shelf for SureShelf {
    ghost seen = { λ s. sure_seen s.inner };

    fn select(&mut self, name: &str) -> Result<(), Failed> {
        self.inner.select(name)
    }

    fn read(&mut self, buf: &mut [u8]) -> Result<usize, Failed> {
        self.inner.read(buf)
    }
}
