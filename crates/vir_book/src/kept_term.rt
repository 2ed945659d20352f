// The two forms in which the terms of names are kept.
ghost use Rattle.std.specs.Prelude.{◌≡◌, IfOk};
ghost use Rattle.vir_term.specs.Tree.{Tree};
ghost use Rattle.vir_read.specs.SharedTerms as shared;

use std::alloc::{AllocError, Global};
use vir_read::SharedTerm;
use vir_term::Term;

/// A voting rule that is kept under a name.
pub trait KeptTerm: Drop {
    ghost meaning: { Self → Tree };

    /// A rule that was read, in the form in which it is kept.
    fn keep(alloc: Global, term: SharedTerm) -> Result<Self, AllocError>
        ensures { IfOk result (λ kept. meaning kept ≡ shared.tree term) };

    /// The rule, for those that name it.
    fn share(&self, alloc: Global) -> Result<SharedTerm, AllocError>
        ensures { IfOk result (λ term. shared.tree term ≡ meaning self.now) };
}

// What names a rule has a copy of it.
impl KeptTerm for Term {
    ghost use Rattle.vir_term.specs.Tree.{tree};

    ghost meaning = { λ term. tree term };

    fn keep(alloc: Global, term: SharedTerm) -> Result<Term, AllocError> {
        term.to_term(alloc)
    }

    fn share(&self, alloc: Global) -> Result<SharedTerm, AllocError> {
        Ok(SharedTerm::Whole(self.copy(alloc)?))
    }
}

// What names a rule shares its parts.
impl KeptTerm for SharedTerm {
    ghost use Rattle.vir_read.specs.SharedTerms.{tree};

    ghost meaning = { λ term. tree term };

    fn keep(_alloc: Global, term: SharedTerm) -> Result<SharedTerm, AllocError> {
        Ok(term)
    }

    fn share(&self, alloc: Global) -> Result<SharedTerm, AllocError> {
        SharedTerm::share(self, alloc)
    }
}
