// Entries that are a rule file's.
ghost use Rattle.std.specs.Prelude.{length, ◌<◌};
ghost use Rattle.vir_term.specs.Tree.{tree};
ghost use Rattle.vir_book.specs.Books.{AllWithinLimits};
ghost use Rattle.vir_book.specs.Entries.{entries};

use crate::entries::Entries;
use vir_term::Term;

/// At least one entry, and all within the limits.
#[derive(Drop)]
pub struct Filled {
    pub found: Entries<Term>,
    ghost has_one: { 0 < length (entries tree found) },
    ghost within: { ∥ AllWithinLimits (entries tree found) ∥₁ },
}
