//! Books: voting rules by their names, as a rule file defines them.
//!
//! A rule file is a list of definitions `name = term;`, each of which may use the names before it. This
//! layer's one contract is that of `read_book`: what it gives is what the language says of the text
//! (`specs/Books.antt`), a book that lists each name with its term, in the order of the definitions, or the
//! text's first fault and its place. A book finds the term of a name, and each of its terms is within the
//! limits. What is printed is read as what it was printed from (`laws.rt`). It stands on `vir_read` for tokens,
//! trees and terms, on `indexmap`, and on `sha2` for how names are hashed.
#![tactic(auto)]

mod book;
mod definition;
mod entries;
mod filled;
mod kept_term;
mod laws;
mod name_hasher;
#[cfg(test)]
mod tests;

pub use book::{Book, RULE_FILE_LIMIT, read_book, read_rule};
pub use laws::{
    no_more_definitions_than_tokens, printed_books_are_read, printed_rules_are_read,
    rule_files_are_so_long, rules_are_within_limits,
};
