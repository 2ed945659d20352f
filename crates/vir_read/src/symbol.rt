// What tokens are to the grammar.
ghost use Rattle.std.specs.Prelude.{◌≡◌};
ghost use Rattle.vir_read.specs.Symbols.{is_same, sign_symbol, symbol};

use crate::token::{Token, TokenKind};

/// What a token is to the grammar.
#[derive(Clone, Copy, Debug, PartialEq, Eq)]
pub enum Symbol {
    Word,
    Number,
    OpenParenthesis,
    CloseParenthesis,
    OpenBracket,
    CloseBracket,
    Comma,
    Semicolon,
    Equals,
}

// The sign that a byte is.
fn sign_symbol(b: u8) -> Symbol
    ensures { result ≡ sign_symbol b }
{
    match b {
        b'(' => Symbol::OpenParenthesis,
        b')' => Symbol::CloseParenthesis,
        b'[' => Symbol::OpenBracket,
        b']' => Symbol::CloseBracket,
        b',' => Symbol::Comma,
        b';' => Symbol::Semicolon,
        _ => Symbol::Equals,
    }
}

impl Symbol {
    // Whether it is this one.
    pub(crate) fn is(self, wanted: Symbol) -> bool
        ensures { result ≡ is_same wanted self }
    {
        self == wanted
    }
}

impl Token {
    /// What the token is to the grammar, where it is one of this text.
    pub fn symbol(&self, text: &[u8]) -> Symbol
        ensures { result ≡ symbol text.now self.now }
    {
        match self.kind {
            TokenKind::Word => Symbol::Word,
            TokenKind::Number => Symbol::Number,
            TokenKind::Sign => match text.get(self.start as usize) {
                Some(b) => sign_symbol(*b),
                None => Symbol::Equals,
            },
        }
    }
}
