// The names that are defined.
ghost use Rattle.std.specs.Prelude.{◌≡◌, option_map, is_some, IfOk};
ghost use Rattle.vir_term.specs.Tree.{tree};
ghost use Rattle.vir_read.specs.SharedTerms as shared;
ghost use Rattle.vir_read.specs.Arguments.{Names};

use crate::shared_term::SharedTerm;
use std::alloc::{AllocError, Global};
use vir_term::Term;

/// What knows the terms that defined names stand for.
pub trait Names {
    ghost meaning: { Self → Names };

    /// The term of a name, where it is defined.
    fn find(&self, name: &[u8]) -> Option<&Term>
        ensures { option_map (λ term. tree term.now) result ≡ meaning self.now name.now };
}

/// What hands out these terms, of which parts may be shared with its own.
pub trait SharedNames {
    ghost meaning: { Self → Names };

    /// Whether a name is defined.
    fn is_defined(&self, name: &[u8]) -> bool
        ensures { result ≡ is_some (meaning self.now name.now) };

    /// The term of a name, where it is defined.
    fn share(&self, alloc: Global, name: &[u8]) -> Result<Option<SharedTerm>, AllocError>
        ensures { IfOk result (λ found. option_map (λ term. shared.tree term) found ≡ meaning self.now name.now) };
}

// Copies of the terms share nothing.
impl<M: Names> SharedNames for &M {
    ghost meaning = { λ names. M.meaning names.now };

    fn is_defined(&self, name: &[u8]) -> bool {
        self.find(name).is_some()
    }

    fn share(&self, alloc: Global, name: &[u8]) -> Result<Option<SharedTerm>, AllocError> {
        match self.find(name) {
            None => Ok(None),
            Some(term) => Ok(Some(SharedTerm::Whole(term.copy(alloc)?))),
        }
    }
}
