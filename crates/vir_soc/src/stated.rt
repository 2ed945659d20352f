// A number that metadata states, with its line.
ghost use Rattle.std.specs.Prelude.{◌≡◌, ◌≤◌, None, IfOk};
ghost use Rattle.vir_altset.specs.Sets.{limit};
ghost use Rattle.vir_soc.specs.Metadata.{alternatives_stated, number_stated};

use crate::bytes::number;
use crate::kind::SocKind;
use vir_profile::LIMIT;

/// A number that metadata states, and the first line that states it.
#[derive(Clone, Copy)]
pub struct Stated {
    pub value: u64,
    pub line: u64,
}

/// The number of alternatives that a value states, beside what an earlier line stated.
pub fn alternatives_stated(earlier: Option<u16>, value: &[u8]) -> Result<u16, SocKind>
    ensures exact { result ≡ alternatives_stated earlier value.now }
    ensures range { IfOk result (λ m. earlier ≡ None → (1 ≤ m) × (m ≤ limit)) }
{
    let Some(n) = number(value) else {
        return Err(SocKind::BadNumber);
    };
    if n == 0 {
        return Err(SocKind::BadNumber);
    }
    if n > u128::from(LIMIT) {
        return Err(SocKind::TooManyAlternatives);
    }
    let m = n as u16;
    match earlier {
        None => Ok(m),
        Some(earlier) => if m == earlier {
            Ok(m)
        } else {
            Err(SocKind::CountDiffers)
        },
    }
}

/// The number of voters or orders that a value states, beside what an earlier line stated.
pub fn number_stated(earlier: Option<Stated>, line: u64, value: &[u8]) -> Result<Stated, SocKind>
    ensures { result ≡ number_stated earlier line value.now }
{
    let Some(n) = number(value) else {
        return Err(SocKind::BadNumber);
    };
    if n >= 1 << 64 {
        return Err(SocKind::BadNumber);
    }
    let value = n as u64;
    match earlier {
        None => Ok(Stated { value, line }),
        Some(earlier) => if value == earlier.value {
            Ok(earlier)
        } else {
            Err(SocKind::CountDiffers)
        },
    }
}
