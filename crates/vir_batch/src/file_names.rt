// The names of files that a manifest lists.
ghost use Rattle.std.specs.Prelude.{◌≡◌, ◌==◌, ◌++◌, ◌∷◌, [], length, slice_get, option_map, OnOk, OnErr};
ghost use Rattle.std.specs.String.{string_bytes};
ghost use Rattle.vir_read.specs.Faults.{Gives};
ghost use Rattle.vir_batch.specs.Manifest.{with_line};

use std::alloc::{AllocError, Global};
use std::marker::Model;
use vir_read::{TextError, TextKind};

/// How many names a manifest may list.
const NAME_LIMIT: usize = 10_000;

/// The names of files that a manifest lists, in its order. They are seen as a list of their bytes.
#[derive(Debug, Drop)]
pub struct FileNames {
    names: Vec<String>,
}

impl Model for FileNames {
    ghost use Rattle.std.specs.Prelude.{List, ℕ, map};
    ghost use Rattle.std.specs.String.{string_bytes};

    ghost Value = { List (List ℕ) };

    ghost view = { λ files. map string_bytes files.names.items };
}

impl FileNames {
    // No names.
    pub(crate) fn new(alloc: Global) -> FileNames
        ensures { result ≡ [] }
    {
        FileNames {
            names: Vec::new(alloc),
        }
    }

    // Appends a name.
    fn push(&mut self, name: String) -> Result<(), AllocError>
        ensures pushed { OnOk result (self.new ≡ self.old ++ string_bytes name ∷ []) }
        ensures unchanged { OnErr result (self.new ≡ self.old) }
    {
        self.names.push(name)?;
        Ok(())
    }

    // Appends the line at a place, unless it is empty.
    pub(crate) fn push_line(
        &mut self,
        alloc: Global,
        at: usize,
        line: &[u8],
    ) -> Result<(), TextError>
        ensures { Gives (λ _. self.new) result (with_line self.old at line.now) }
    {
        if line.is_empty() {
            return Ok(());
        }
        let Ok(name) = str::from_utf8(line) else {
            return Err(TextError::fault(TextKind::BadByte, at));
        };
        if self.len() >= NAME_LIMIT {
            return Err(TextError::fault(TextKind::TooLarge, at));
        }
        self.push(String::from_str(alloc, name)?)?;
        Ok(())
    }

    /// How many names there are.
    pub fn len(&self) -> usize
        ensures { result ≡ length self.now }
    {
        self.names.len()
    }

    /// Whether there are none.
    pub fn is_empty(&self) -> bool
        ensures { result ≡ (length self.now == 0) }
    {
        self.names.is_empty()
    }

    /// The name at an index, the first one at 0; none exactly where the index isn't below the length.
    pub fn at(&self, i: usize) -> Option<&str>
        ensures { option_map (λ name. name.now) result ≡ slice_get self.now i }
    {
        match self.names.get(i) {
            Some(name) => Some(name.as_str()),
            None => None,
        }
    }
}
