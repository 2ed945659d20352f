// Why a rule's way to its result isn't told.
ghost use Rattle.std.specs.Prelude.{◌≡◌, ◌≤◌, IfErr, OnOk, length};
ghost use Rattle.vir_explain.specs.TextLimits.{text_limit, IsTooLong};
ghost use Rattle.vir_explain.specs.declared.unexplained.Unexplained.TheVariants.{Memory, TooLong};

use std::alloc::AllocError;

/// Why there is no explanation.
#[derive(Debug, Drop)]
pub enum Unexplained {
    /// The text would have more bytes than a text may have.
    TooLong,
    /// Memory is wanting.
    Memory,
}

impl From<AllocError> for Unexplained {
    ghost from_gives = { λ _ why. why ≡ Memory };

    fn from(_: AllocError) -> Unexplained {
        Unexplained::Memory
    }
}

/// The most bytes of a text, with what stands before the explanation.
pub const TEXT_LIMIT: usize = 268_435_456;

// Refuses a text that is too long.
pub(crate) fn keep_short(text: &[u8]) -> Result<(), Unexplained>
    ensures short { OnOk result (length text.now ≤ text_limit) }
    ensures long { IfErr result (λ why. (why ≡ TooLong) × IsTooLong text.now) }
{
    if text.len() > TEXT_LIMIT {
        return Err(Unexplained::TooLong);
    }
    Ok(())
}
