//! Rule texts read: tokens, trees, and the terms that these stand for.
//!
//! The language is defined in `specs/` as functions on whole texts and whole lists, without a reader's
//! state: the tokens of a text (`Tokens.antt`), one tree of a list of tokens (`Grammar.antt`, whose trees
//! are those of `RawTrees.antt`), and the term that a tree stands for (`BuiltIns.antt`,
//! `Arguments.antt`, `Typing.antt`). The one contract of this layer: `tokens`, `read_raw` and
//! `type_term` give the value or the first fault, with its kind and its place, exactly where these
//! functions do; and each term within the limits, printed, is read as itself (`laws.rt`). It stands on
//! `vir_term`, and on `thiserror` for its errors.
#![tactic(auto)]

mod arguments;
mod built;
mod built_in;
mod laws;
mod names;
mod next_token;
mod raw;
mod shared_term;
mod symbol;
mod text_fault;
mod token;
mod token_reader;
mod tree_reader;
mod typing;

pub use arguments::{count_of, is_known, span};
pub use built_in::{BuiltIn, Eliminator, Ordered, Pair, Plain, built_in_named};
pub use laws::{
    limits_are_these, pieces_are_read, printed_definitions_are_read, printed_terms_are_read,
    printed_terms_are_short, spelled_terms_are_typed, terms_are_pieces,
};
pub use names::{Names, SharedNames};
pub use next_token::{front, read_symbol, unexpected};
pub use raw::{Raw, RawList};
pub use shared_term::SharedTerm;
pub use symbol::Symbol;
pub use text_fault::{TextError, TextFault, TextKind};
pub use token::{Token, TokenKind};
pub use token_reader::tokens;
pub use tree_reader::{RawEnd, Separator, UNCLOSED_LIMIT, read_raw, read_separator};
pub use typing::{share_term_at, type_term, type_term_at};
