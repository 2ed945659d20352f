// Rule files.
ghost use Rattle.std.specs.Prelude.{◌≡◌, ◌-◌, ◌≤◌, ◌∷◌, [], None, Some, Ok, IfOk, IfSome, option_map, length};
ghost use Rattle.std.specs.Prelude.{slice_get, ℕ};
ghost use Rattle.vir_term.specs.Tree.{tree};
ghost use Rattle.vir_term.specs.Limits.{IsWithinLimits};
ghost use Rattle.vir_read.specs.Faults.{Gives};
ghost use Rattle.vir_read.specs.SharedTerms as shared;
ghost use Rattle.vir_read.specs.Arguments.{AreWithinLimits};
ghost use Rattle.vir_book.specs.Books.{lookup, entry, new_term, with_definition, entries_of, last_term};
ghost use Rattle.vir_book.specs.Books.{AllWithinLimits, filled, book_of, rule_of};
ghost use Rattle.vir_book.specs.Entries.{entries, rule_of_entries};
ghost use Rattle.vir_book.specs.Listing.{listing, written};

use crate::definition::{Definition, read_definition};
use crate::entries::Entries;
use crate::filled::Filled;
use crate::kept_term::KeptTerm;
use crate::name_hasher::NameHasher;
use std::alloc::Global;
use vir_read::{
    Names, SharedTerm, TextError, TextKind, Token, is_known, share_term_at, span, tokens,
};
use vir_term::Term;

/// How many bytes a rule file may have.
pub const RULE_FILE_LIMIT: usize = 1_048_576;

/// The names of a rule file and their terms, at least one.
#[derive(Drop)]
pub struct Book {
    filled: Filled,
}

impl Book {
    /// The term of a name, where it is defined.
    pub fn get(&self, name: &[u8]) -> Option<&Term>
        ensures within { IfSome result (λ term. IsWithinLimits (tree term.now)) }
        ensures found { option_map (λ term. tree term.now) result ≡ lookup (listing self.now) name.now }
    {
        self.filled.found.get(name)
    }

    /// The term of the last definition.
    pub fn last_rule(&self) -> &Term
        ensures last { last_term (listing self.now) ≡ Ok (tree result.now) }
        ensures within { IsWithinLimits (tree result.now) }
    {
        match self.filled.found.last() {
            Some(term) => term,
            None => unreachable!(),
        }
    }
}

impl Names for Book {
    ghost use Rattle.vir_book.specs.Books.{lookup};
    ghost use Rattle.vir_book.specs.Listing.{listing};

    ghost meaning = { λ book. lookup (listing book) };

    fn find(&self, name: &[u8]) -> Option<&Term> {
        self.get(name)
    }
}

// The term of a definition, whose name must be new.
#[tactic(auto, using(crate::proofs::BookLemmas::lookup_unknown))]
fn term_of_definition<T: KeptTerm>(
    alloc: Global,
    text: &[u8],
    found: &Entries<T>,
    name: &[u8],
    definition: &Definition,
) -> Result<SharedTerm, TextError>
    requires { AllWithinLimits (entries T.meaning found.now) }
    ensures exact { Gives shared.tree result (new_term text.now (entries T.meaning found.now) name.now (written
        definition.now)) }
    ensures new { IfOk result (λ term. (lookup (entries T.meaning found.now) name.now ≡ None)
        × IsWithinLimits (shared.tree term)) }
{
    let at = definition.name.start as usize;
    if is_known(found, name) {
        return Err(TextError::fault(TextKind::NameTwice, at));
    }
    share_term_at(alloc, text, &definition.raw, found, at)
}

// The entries with that of a definition behind them.
fn add_definition<T: KeptTerm>(
    alloc: Global,
    text: &[u8],
    found: Entries<T>,
    definition: &Definition,
) -> Result<Entries<T>, TextError>
    requires { AllWithinLimits (entries T.meaning found) }
    ensures exact { Gives (λ after. entries T.meaning after) result (with_definition text.now (entries T.meaning found)
        (written definition.now)) }
    ensures within { IfOk result (λ after. AllWithinLimits (entries T.meaning after)) }
{
    let mut found = found;
    let name = span(text, definition.name.start, definition.name.end);
    let term = term_of_definition(alloc, text, &found, name, definition)?;
    let name = Vec::from_slice(alloc, name)?;
    let kept = T::keep(alloc, term)?;
    found.add(name, kept)?;
    Ok(found)
}

// The entries of the definitions that these tokens are.
fn entries_of<T: KeptTerm>(
    alloc: Global,
    text: &[u8],
    list: &[Token],
) -> Result<Entries<T>, TextError>
    ensures exact { Gives (λ found. entries T.meaning found) result (entries_of (length list.now) text.now []
        list.now) }
    ensures within { IfOk result (λ found. AllWithinLimits (entries T.meaning found)) }
{
    let mut found = Entries::new(alloc, NameHasher::of(text));
    let mut at = 0;
    for _ in 0..list.len() {
        if at >= list.len() {
            return Ok(found);
        }
        let definition = match read_definition(alloc, text, list, at) {
            Ok(definition) => definition,
            Err(e) => return Err(e),
        };
        found = match add_definition(alloc, text, found, &definition) {
            Ok(after) => after,
            Err(e) => return Err(e),
        };
        at = definition.next;
    }
    Ok(found)
}

// The book of these entries.
fn book_of_entries(found: Entries<Term>) -> Result<Book, TextError>
    requires { AllWithinLimits (entries tree found) }
    ensures exact { Gives listing result (filled (entries tree found)) }
    ensures within { IfOk result (λ book. AreWithinLimits (lookup (listing book))) }
{
    if found.is_empty() {
        return Err(TextError::fault(TextKind::EmptyBook, 0));
    }
    Ok(Book {
        filled: Filled { found },
    })
}

/// The book of a rule file, or its first fault: of a text longer than `RULE_FILE_LIMIT`, of a byte that belongs
/// to no token, or of the first definition that has one. In a definition the grammar comes first, then that
/// its name is new, then its term; that this is too large is told at the name.
pub fn read_book(alloc: Global, text: &[u8]) -> Result<Book, TextError>
    ensures exact { Gives listing result (book_of text.now) }
    ensures within { IfOk result (λ book. AreWithinLimits (lookup (listing book))) }
{
    if text.len() > RULE_FILE_LIMIT {
        return Err(TextError::fault(TextKind::TextTooLong, RULE_FILE_LIMIT));
    }
    let list = tokens(alloc, text)?;
    let found = entries_of(alloc, text, &list)?;
    book_of_entries(found)
}

// The last term of these entries.
fn rule_of_entries(alloc: Global, found: &Entries<SharedTerm>) -> Result<Term, TextError>
    requires { AllWithinLimits (entries shared.tree found.now) }
    ensures exact { Gives tree result (rule_of_entries (entries shared.tree found.now)) }
    ensures within { IfOk result (λ term. IsWithinLimits (tree term)) }
{
    match found.last() {
        None => Err(TextError::fault(TextKind::EmptyBook, 0)),
        Some(term) => match term.to_term(alloc) {
            Ok(term) => Ok(term),
            Err(_) => Err(TextError::Memory),
        },
    }
}

/// The term that a rule file defines last, or the fault that `read_book` gives. The terms of names are shared while
/// the file is read, so that a name costs a few bytes wherever it stands.
pub fn read_rule(alloc: Global, text: &[u8]) -> Result<Term, TextError>
    ensures exact { Gives tree result (rule_of text.now) }
    ensures within { IfOk result (λ term. IsWithinLimits (tree term)) }
{
    if text.len() > RULE_FILE_LIMIT {
        return Err(TextError::fault(TextKind::TextTooLong, RULE_FILE_LIMIT));
    }
    let list = tokens(alloc, text)?;
    let found: Entries<SharedTerm> = entries_of(alloc, text, &list)?;
    rule_of_entries(alloc, &found)
}
