// Tokens of a text. Their places take four bytes each, since a long text has many.
/// What sort of token it is.
#[derive(Clone, Copy, Debug, PartialEq, Eq)]
pub enum TokenKind {
    /// A letter, and the letters, digits, `_` and `-` behind it.
    Word,
    /// Digits.
    Number,
    /// One of the signs `(`, `)`, `[`, `]`, `,`, `;` and `=`.
    Sign,
}

/// A token of a text, from the byte at `start` to that before `end`.
#[derive(Clone, Copy, Debug, PartialEq, Eq)]
pub struct Token {
    pub kind: TokenKind,
    pub start: u32,
    pub end: u32,
}
