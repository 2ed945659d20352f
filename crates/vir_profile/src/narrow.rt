// The alternatives of a longer order all of whose members are below 256: one byte for each.
ghost use Rattle.std.specs.Prelude.{◌≡◌, ◌≤◌, length, IfOk, IfSome};

use std::alloc::{AllocError, Global};
use std::marker::Model;

/// How many alternatives a list of bytes holds.
pub const NARROW: usize = 255;

/// A list of at most `NARROW` alternatives below 256.
#[derive(Debug, Drop)]
pub struct Narrow {
    places: Vec<u8>,
}

impl Model for Narrow {
    ghost use Rattle.std.specs.Prelude.{List, ℕ, ◌≤◌, length};
    ghost use Rattle.vir_profile.specs.declared.narrow.TheConstants.{NARROW};

    ghost Value = { List ℕ };

    ghost view = { λ a. a.places.items };

    ghost invariant = { λ a. length a.places.items ≤ NARROW };
}

impl Narrow {
    /// The alternatives of these bytes.
    pub fn of(places: Vec<u8>) -> Narrow
        requires { length places.items ≤ NARROW }
        ensures { result ≡ places.items }
    {
        Narrow { places }
    }

    /// These alternatives; None where they are too many or one of them is too great.
    pub fn from_slice(alloc: Global, order: &[u16]) -> Result<Option<Narrow>, AllocError>
        ensures { IfOk result (λ o. IfSome o (λ narrow. narrow ≡ order.now)) }
    {
        if order.len() > NARROW {
            return Ok(None);
        }
        let mut places = Vec::with_capacity(alloc, order.len())?;
        for i in 0..order.len() {
            if order[i] >= 256 {
                return Ok(None);
            }
            places.push(order[i] as u8)?;
        }
        Ok(Some(Narrow { places }))
    }

    /// The alternatives, in their order.
    pub fn as_slice(&self) -> &[u8]
        ensures bytes { result.now ≡ self.now }
        ensures short { length result.now ≤ NARROW }
    {
        self.places.as_slice()
    }
}
