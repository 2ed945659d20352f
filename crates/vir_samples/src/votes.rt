// Profiles of three alternatives.
ghost use Rattle.std.specs.Prelude.{◌≡◌, ◌∷◌, ◌++◌, [], IfOk, OnOk, map};
ghost use Rattle.vir_samples.specs.Samples.{line_of};

use std::alloc::Global;
use vir_profile::{AddFault, Ballot, Entry, Profile};

/// How many voters cast which order.
pub type Votes<'a> = &'a [(u64, [u16; 3])];

/// Alternative 1 has most first places, and loses to each of the others; 2 beats both others. First 3 goes, and then 1.
pub const DIVIDED: Votes<'static> = &[(4, [1, 2, 3]), (3, [2, 3, 1]), (2, [3, 2, 1])];

/// Each beats one other, so none beats both.
pub const CYCLE: Votes<'static> = &[(1, [1, 2, 3]), (1, [2, 3, 1]), (1, [3, 1, 2])];

/// By first places 3 goes, with 5 to 6 and 6; its voters prefer 1 to 2.
pub const BEFORE: Votes<'static> = &[
    (6, [1, 2, 3]),
    (5, [3, 1, 2]),
    (4, [2, 3, 1]),
    (2, [2, 1, 3]),
];

/// Two of the voters of `BEFORE` lift 1. Now 2 goes, with 4 first places, and its voters prefer 3 to 1.
pub const AFTER: Votes<'static> = &[
    (6, [1, 2, 3]),
    (5, [3, 1, 2]),
    (4, [2, 3, 1]),
    (2, [1, 2, 3]),
];

// Appends a line.
fn add_line(
    alloc: Global,
    profile: &mut Profile,
    weight: u64,
    order: &[u16; 3],
) -> Result<(), AddFault>
    ensures { OnOk result (profile.new ≡ record profile.old {
      lines = profile.old.lines ++ line_of (weight, order.now) ∷ [];
    }) }
{
    let Ok(order) = Ballot::from_slice(alloc, order) else {
        return Err(AddFault::Memory);
    };
    match profile.add(Entry { weight, order }) {
        Ok(()) => Ok(()),
        Err(refused) => Err(refused.fault),
    }
}

/// The profile of these votes.
pub fn profile_of(alloc: Global, votes: Votes<'_>) -> Result<Profile, AddFault>
    ensures { IfOk result (λ profile. profile ≡ record { alternatives = 3; lines = map line_of votes.now }) }
{
    let mut profile = Profile::new(alloc, 3);
    for (weight, order) in votes {
        add_line(alloc, &mut profile, *weight, order)?;
    }
    Ok(profile)
}
