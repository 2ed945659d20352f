// Names and their terms.
ghost use Rattle.std.specs.Prelude.{◌≡◌, ◌==◌, ◌-◌, ◌∷◌, [], ◌++◌, None, OnOk, option_map, length, slice_get};
ghost use Rattle.vir_book.specs.Books.{entry, lookup};
ghost use Rattle.vir_book.specs.Entries.{entries};

use crate::kept_term::KeptTerm;
use crate::name_hasher::NameHasher;
use indexmap::IndexMap;
use std::alloc::{AllocError, Global};
use vir_read::{SharedNames, SharedTerm};

/// Names and their terms, in the order of their definitions.
#[derive(Drop)]
pub struct Entries<T> {
    map: IndexMap<Vec<u8>, T, NameHasher>,
}

impl<T: KeptTerm> Entries<T> {
    /// No names. Those that come are hashed by this hasher.
    pub fn new(alloc: Global, hasher: NameHasher) -> Entries<T>
        ensures { entries T.meaning result ≡ [] }
    {
        Entries {
            map: IndexMap::with_hasher(alloc, hasher),
        }
    }

    pub fn len(&self) -> usize
        ensures { result ≡ length (entries T.meaning self.now) }
    {
        self.map.len()
    }

    pub fn is_empty(&self) -> bool
        ensures { result ≡ (length (entries T.meaning self.now) == 0) }
    {
        self.map.len() == 0
    }

    pub fn get(&self, name: &[u8]) -> Option<&T>
        ensures { option_map (λ term. T.meaning term.now) result ≡ lookup (entries T.meaning self.now) name.now }
    {
        self.map.get(name)
    }

    pub fn last(&self) -> Option<&T>
        ensures { option_map (λ term. T.meaning term.now) result ≡ option_map (λ e. e.term)
            (slice_get (entries T.meaning self.now) (length (entries T.meaning self.now) - 1)) }
    {
        match self.map.last() {
            Some((_, term)) => Some(term),
            None => None,
        }
    }

    /// Appends a name that is new.
    pub fn add(&mut self, name: Vec<u8>, term: T) -> Result<(), AllocError>
        requires { lookup (entries T.meaning self.old) name.items ≡ None }
        ensures { OnOk result (entries T.meaning self.new
            ≡ entries T.meaning self.old ++ entry name.items (T.meaning term) ∷ []) }
    {
        match self.map.insert(name, term) {
            Ok(_) => Ok(()),
            Err(_) => Err(AllocError),
        }
    }
}

impl<T: KeptTerm> SharedNames for Entries<T> {
    ghost use Rattle.vir_book.specs.Books.{lookup};
    ghost use Rattle.vir_book.specs.Entries.{entries};

    ghost meaning = { λ e. lookup (entries T.meaning e) };

    fn is_defined(&self, name: &[u8]) -> bool {
        self.get(name).is_some()
    }

    fn share(&self, alloc: Global, name: &[u8]) -> Result<Option<SharedTerm>, AllocError> {
        match self.get(name) {
            None => Ok(None),
            Some(term) => Ok(Some(term.share(alloc)?)),
        }
    }
}
