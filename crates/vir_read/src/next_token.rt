// The next token of a list, and what it has to be.
ghost use Rattle.std.specs.Prelude.{◌≡◌, ◌+◌, ◌<◌, ◌∷◌, [], length, drop, MatchOption, OnOk};
ghost use Rattle.vir_read.specs.declared.text_fault.TextKind.TheVariants.{Unexpected};
ghost use Rattle.vir_read.specs.Faults.{Gives, fault};
ghost use Rattle.vir_read.specs.Grammar.{front_place, symbol_of};

use crate::symbol::Symbol;
use crate::text_fault::{TextError, TextKind};
use crate::token::Token;

/// The token at an index, where there is one.
#[tactic(auto, using(crate::proofs::DropLemmas::drop_here, crate::proofs::DropLemmas::drop_gone))]
pub fn front(list: &[Token], at: usize) -> Option<Token>
    ensures { MatchOption result (drop at list.now ≡ [])
        (λ t. (drop at list.now ≡ t ∷ drop (at + 1) list.now) × (at < length list.now)) }
{
    list.get(at).copied()
}

/// That the token at an index isn't allowed, or that the text ends too early.
pub fn unexpected(text: &[u8], list: &[Token], at: usize) -> TextError
    ensures { result ≡ TextError.Fault (fault Unexpected (front_place text.now (drop at list.now))) }
{
    let place = match front(list, at) {
        Some(token) => token.start as usize,
        None => text.len(),
    };
    TextError::fault(TextKind::Unexpected, place)
}

/// The token at an index, which must be this to the grammar.
pub fn read_symbol(
    text: &[u8],
    list: &[Token],
    at: usize,
    wanted: Symbol,
) -> Result<Token, TextError>
    ensures exact { Gives (λ t. (t, drop (at + 1) list.now)) result (symbol_of text.now wanted (drop at list.now)) }
    ensures within { OnOk result (at < length list.now) }
{
    let Some(token) = front(list, at) else {
        return Err(unexpected(text, list, at));
    };
    if token.symbol(text).is(wanted) {
        Ok(token)
    } else {
        Err(unexpected(text, list, at))
    }
}
