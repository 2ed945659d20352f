// What is wrong with a text, and where.
ghost use Rattle.std.specs.Prelude.{◌≡◌};
ghost use Rattle.vir_read.specs.Kinds.{kind_name};
ghost use Rattle.vir_read.specs.Faults.{fault};

use std::alloc::AllocError;
use thiserror::Error;

/// What is wrong with a rule file or a certificate.
#[derive(Clone, Copy, Debug, PartialEq, Eq)]
pub enum TextKind {
    /// A byte that belongs to no token.
    BadByte,
    /// A token that the grammar doesn't allow here, or a text that ends too early.
    Unexpected,
    /// A word that is neither built in nor defined.
    UnknownName,
    /// A word with too many or too few arguments.
    WrongCountOfArguments,
    /// A tree of another sort than is wanted here.
    WrongSort,
    /// A number that isn't within the limits.
    BadNumber,
    /// A member of a fixed order that stood before.
    RepeatedInOrder,
    /// One sign too many that is still unclosed, or one level of composition too many.
    TooDeep,
    /// A term of too many modules and compositions.
    TooLarge,
    /// A text of too many bytes.
    TextTooLong,
    /// A name that is built in, or defined before.
    NameTwice,
    /// A rule file without a definition.
    EmptyBook,
    /// A certificate that doesn't begin as one.
    BadHeader,
    /// A word that is no rule's name, where a rule is wanted.
    UnknownRule,
    /// A token after the end of a certificate.
    TrailingText,
}

/// A fault of a text, and the place of the token that it is about: bytes from 0.
#[derive(Clone, Copy, Debug, PartialEq, Eq, Error)]
#[error("{} at byte {at}", .kind.name())]
pub struct TextFault {
    pub kind: TextKind,
    pub at: usize,
}

/// Why a text gave no value.
#[derive(Clone, Copy, Debug, PartialEq, Eq, Error)]
pub enum TextError {
    /// The text has this fault, and it is the first one.
    #[error(transparent)]
    Fault(TextFault),
    /// Memory ran out.
    #[error("out of memory")]
    Memory,
}

impl From<AllocError> for TextError {
    ghost use Rattle.std.specs.Prelude.{◌≡◌};
    ghost use Rattle.vir_read.specs.declared.text_fault.TextError.TheVariants.{Memory as OutOfMemory};

    ghost from_gives = { λ _ e. e ≡ OutOfMemory };

    fn from(_: AllocError) -> TextError {
        TextError::Memory
    }
}

impl TextError {
    /// A fault of this kind, at this place.
    pub fn fault(kind: TextKind, at: usize) -> TextError
        ensures { result ≡ TextError.Fault (fault kind at) }
    {
        TextError::Fault(TextFault { kind, at })
    }
}

impl TextKind {
    /// The kind's name, as it is printed.
    pub fn name(self) -> &'static str
        ensures { result.now ≡ kind_name self }
    {
        match self {
            TextKind::BadByte => "BadByte",
            TextKind::Unexpected => "Unexpected",
            TextKind::UnknownName => "UnknownName",
            TextKind::WrongCountOfArguments => "WrongCountOfArguments",
            TextKind::WrongSort => "WrongSort",
            TextKind::BadNumber => "BadNumber",
            TextKind::RepeatedInOrder => "RepeatedInOrder",
            TextKind::TooDeep => "TooDeep",
            TextKind::TooLarge => "TooLarge",
            TextKind::TextTooLong => "TextTooLong",
            TextKind::NameTwice => "NameTwice",
            TextKind::EmptyBook => "EmptyBook",
            TextKind::BadHeader => "BadHeader",
            TextKind::UnknownRule => "UnknownRule",
            TextKind::TrailingText => "TrailingText",
        }
    }
}
