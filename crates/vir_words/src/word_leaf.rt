// Modules as words of the command line.
ghost use Rattle.std.specs.Prelude.{◌≡◌, IfOk, IfSome};
ghost use Rattle.vir_term.specs.Limits.{IsWithinLimits};
ghost use Rattle.vir_term.specs.Tree.{leaf, tree};
ghost use Rattle.vir_words.specs.WordLeaves.{leaf_of, printed_leaf, rule_file};

use std::alloc::{AllocError, Global};
use vir_book::read_book;
use vir_read::TextError;
use vir_term::{Leaf, Term};

// The rule file that defines a rule by the word.
fn rule_file(alloc: Global, word: &str) -> Result<Vec<u8>, AllocError>
    ensures { IfOk result (λ text. text.items ≡ rule_file word.now) }
{
    let mut text = Vec::from_slice(alloc, b"r=")?;
    text.extend_from_slice(word.as_bytes())?;
    text.extend_from_slice(b";")?;
    Ok(text)
}

// A module, where it is printed so.
fn copy_printed(alloc: Global, word: &str, read: &Leaf) -> Result<Option<Leaf>, AllocError>
    ensures { IfOk result (λ found. found ≡ printed_leaf word.now (leaf read.now)) }
{
    let text = read.print(alloc)?;
    if text.as_slice() == word.as_bytes() {
        Ok(Some(read.copy(alloc)?))
    } else {
        Ok(None)
    }
}

// The rule's module, where it is one module, which is printed so.
fn find_printed(alloc: Global, word: &str, term: &Term) -> Result<Option<Leaf>, AllocError>
    ensures { IfOk result (λ found. found ≡ printed_leaf word.now (tree term.now)) }
{
    match term {
        Term::Leaf(leaf) => copy_printed(alloc, word, leaf),
        _ => Ok(None),
    }
}

/// The module that a word is the printed text of. A word that isn't one may take memory too.
pub fn word_leaf(alloc: Global, word: &str) -> Result<Option<Leaf>, AllocError>
    ensures module { IfOk result (λ found. found ≡ leaf_of word.now) }
    ensures range { IfOk result (λ found. IfSome found (λ l. IsWithinLimits (leaf l))) }
{
    let text = rule_file(alloc, word)?;
    match read_book(alloc, &text) {
        Ok(book) => find_printed(alloc, word, book.last_rule()),
        Err(TextError::Fault(_)) => Ok(None),
        Err(TextError::Memory) => Err(AllocError),
    }
}
