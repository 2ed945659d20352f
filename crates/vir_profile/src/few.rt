// The alternatives of a short order, which stand in the ballot itself.
ghost use Rattle.std.specs.Prelude.{◌≡◌, ◌≤◌, ◌<◌, [], ◌∷◌, ◌++◌, All, length, IfSome, IsSome};

use std::marker::Model;

/// How many alternatives below 256 a ballot holds without memory of its own.
pub const ALTERNATIVES_IN_PLACE: usize = 14;

/// A list of few alternatives below 256, which takes no memory of its own.
#[derive(Debug, Drop)]
pub struct Few {
    count: u8,
    places: [u8; ALTERNATIVES_IN_PLACE],
}

impl Model for Few {
    ghost use Rattle.std.specs.Prelude.{List, ℕ, ◌≤◌, take};
    ghost use Rattle.vir_profile.specs.declared.few.TheConstants.{ALTERNATIVES_IN_PLACE};

    ghost Value = { List ℕ };

    ghost view = { λ a. take a.count a.places };

    ghost invariant = { λ a. a.count ≤ ALTERNATIVES_IN_PLACE };
}

impl Few {
    /// These alternatives; None exactly where they are too many or one of them is too great.
    pub fn of(order: &[u16]) -> Option<Few>
        ensures room { (length order.now ≤ ALTERNATIVES_IN_PLACE) × All (λ x. x < 256) order.now → IsSome result }
        ensures order { IfSome result (λ few. few ≡ order.now) }
    {
        if order.len() > ALTERNATIVES_IN_PLACE {
            return None;
        }
        let mut few = Few::none();
        for i in 0..order.len() {
            if order[i] >= 256 {
                return None;
            }
            few.push(order[i] as u8);
        }
        Some(few)
    }

    /// No alternatives.
    pub fn none() -> Few
        ensures { result ≡ [] }
    {
        Few {
            count: 0,
            places: [0; ALTERNATIVES_IN_PLACE],
        }
    }

    /// Appends an alternative, for which there must be room.
    pub fn push(&mut self, x: u8)
        requires { length self.old < ALTERNATIVES_IN_PLACE }
        ensures { self.new ≡ self.old ++ x ∷ [] }
    {
        self.places[usize::from(self.count)] = x;
        self.count += 1;
    }

    /// How many they are.
    pub fn len(&self) -> usize
        ensures { result ≡ length self.now }
    {
        usize::from(self.count)
    }

    /// The alternatives, in their order.
    pub fn as_slice(&self) -> &[u8]
        ensures places { result.now ≡ self.now }
        ensures few { length result.now ≤ ALTERNATIVES_IN_PLACE }
    {
        &self.places[..usize::from(self.count)]
    }
}
