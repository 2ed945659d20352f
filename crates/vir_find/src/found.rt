// The case that a search finds.
ghost use Rattle.std.specs.Prelude.{IfSome};
ghost use Rattle.vir_altset.specs.Sets.{all};
ghost use Rattle.vir_profile.specs.Elections.{IsElection};
ghost use Rattle.vir_refute.specs.Cases.{AreElections};
ghost use Rattle.vir_find.specs.Found.{found_case};

use vir_profile::Profile;

/// A case that violates a property: a profile, or two, of which the second lifts an alternative against the first, or a
/// profile and two neighbours that change names.
#[derive(Debug, Drop)]
pub enum FoundCase {
    /// For a property that speaks of one profile.
    One {
        profile: Profile,
    },
    /// For a property of lifts.
    Pair {
        first: Profile,
        second: Profile,
        lifted: u16,
    },
    /// For neutrality: this alternative and the next one change names.
    Exchanged {
        profile: Profile,
        lower: u16,
    },
}

// Does nothing. Its clause tells a caller that a profile is an election.
fn is_election(profile: &Profile)
    ensures { IsElection (all profile.now.alternatives) profile.now.lines }
{
    let _ = profile.alternatives();
}

// The same of the profiles of a case.
fn are_elections(found: &FoundCase)
    ensures { AreElections (found_case found.now) }
{
    match found {
        FoundCase::One { profile } | FoundCase::Exchanged { profile, .. } => is_election(profile),
        FoundCase::Pair { first, second, .. } => {
            is_election(first);
            is_election(second);
        }
    }
}

/// Does nothing. Its clause tells that the profiles of a case are elections.
pub(crate) fn some_are_elections(found: &Option<FoundCase>)
    ensures { IfSome found.now (λ c. AreElections (found_case c)) }
{
    if let Some(found) = found {
        are_elections(found);
    }
}
