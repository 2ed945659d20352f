// The definitions of a text, as they stand there.
ghost use Rattle.std.specs.Prelude.{◌<◌, ◌≤◌, length, drop, IfOk};
ghost use Rattle.vir_read.specs.Faults.{Gives};
ghost use Rattle.vir_book.specs.Books.{definition_of};
ghost use Rattle.vir_book.specs.Listing.{written};

use std::alloc::Global;
use vir_read::{Raw, RawEnd, Symbol, TextError, Token, read_raw, read_symbol};

/// A definition's name, and the tree of its term.
#[derive(Drop)]
pub struct Definition {
    pub name: Token,
    pub raw: Raw,
    /// The index of the token behind it.
    pub next: usize,
}

/// The definition at an index, or the fault `Unexpected` or `TooDeep` of its first token that isn't allowed.
pub fn read_definition(
    alloc: Global,
    text: &[u8],
    list: &[Token],
    at: usize,
) -> Result<Definition, TextError>
    ensures exact { Gives (λ d. (written d, drop d.next list.now)) result (definition_of text.now (drop at list.now)) }
    ensures forward { IfOk result (λ d. (at < d.next) × (d.next ≤ length list.now)) }
{
    let name = read_symbol(text, list, at, Symbol::Word)?;
    read_symbol(text, list, at + 1, Symbol::Equals)?;
    let RawEnd { raw, next } = read_raw(alloc, text, list, at + 2)?;
    read_symbol(text, list, next, Symbol::Semicolon)?;
    Ok(Definition {
        name,
        raw,
        next: next + 1,
    })
}
