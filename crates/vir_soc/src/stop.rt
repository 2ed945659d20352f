// Why a step on a line stops.
ghost use Rattle.std.specs.Prelude.{◌≡◌};
ghost use Rattle.vir_soc.specs.declared.stop.Stop.TheVariants.{Kind, Memory};

use crate::kind::SocKind;
use std::alloc::{AllocError, AllocFailed};

/// Why a line was not taken.
#[derive(Clone, Copy, PartialEq, Eq)]
pub enum Stop {
    Kind(SocKind),
    Memory,
}

impl From<SocKind> for Stop {
    ghost from_gives = { λ kind e. e ≡ Kind kind };

    fn from(kind: SocKind) -> Stop {
        Stop::Kind(kind)
    }
}

impl From<AllocError> for Stop {
    ghost from_gives = { λ _ e. e ≡ Memory };

    fn from(_: AllocError) -> Stop {
        Stop::Memory
    }
}

impl<T: Drop> From<AllocFailed<T>> for Stop {
    ghost from_gives = { λ _ e. e ≡ Memory };

    fn from(_: AllocFailed<T>) -> Stop {
        Stop::Memory
    }
}
