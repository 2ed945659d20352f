// The eliminators of a score.
ghost use Rattle.std.specs.Prelude.{◌≡◌};
ghost use Rattle.vir_altset.specs.Sets.{all, IsPart};
ghost use Rattle.vir_profile.specs.Profiles.{restrict};
ghost use Rattle.vir_mean.specs.Eliminators.{eliminator};

use crate::scoring::Scoring;
use vir_mean::{Elimination, PLACES, Tally, eliminate_by_scores, list_members};
use vir_profile::{AltSet, Split};
use vir_tables::Election;

/// The split of the eliminator of this kind and this score: those that go by their scores are
/// rejected and the others deferred, or all are deferred where all would go. It asks once for the
/// scores of all members.
pub fn eliminate<S: Scoring>(
    kind: Elimination,
    scoring: &S,
    election: &Election,
    domain: &AltSet,
) -> Split
    requires { IsPart domain.now (all election.now.profile.alternatives) }
    ensures { result
        ≡ eliminator kind (S.named scoring.now) domain.now (restrict domain.now election.now.profile.lines) }
{
    // that the number of voters is a u64 bounds the scores
    let _voters = Tally::voters(election, domain);
    let mut list = [0u16; PLACES];
    let count = list_members(domain, &mut list);
    let members = &list[..count];
    let mut scores = [0i128; PLACES];
    scoring.fill(election, domain, members, &mut scores);
    eliminate_by_scores(kind, domain, members, &scores)
}
