// Faults of files, with their lines.
use crate::kind::SocKind;
use std::alloc::AllocError;
use thiserror::Error;

/// A fault of a file, and its line. Lines are numbered from 1.
#[derive(Clone, Copy, Debug, PartialEq, Eq, Error)]
#[error("{} at line {line}", .kind.name())]
pub struct SocFault {
    pub line: u64,
    pub kind: SocKind,
}

/// Why a reader gave no file.
#[derive(Clone, Copy, Debug, PartialEq, Eq, Error)]
pub enum SocError {
    /// The file has this fault, and no line before it has one.
    #[error(transparent)]
    Fault(SocFault),
    /// Memory ran out.
    #[error("out of memory")]
    Memory,
}

impl From<AllocError> for SocError {
    ghost use Rattle.std.specs.Prelude.{◌≡◌};
    ghost use Rattle.vir_soc.specs.declared.fault.SocError.TheVariants.{Memory as OutOfMemory};

    ghost from_gives = { λ _ e. e ≡ OutOfMemory };

    fn from(_: AllocError) -> SocError {
        SocError::Memory
    }
}
