// Two alternatives head to head: whom plurality elects of them is told by how many voters prefer each to the other.
ghost use Rattle.std.specs.Prelude.{◌≡◌, List, IfSome};
ghost use Rattle.vir_altset.specs.Sets.{all, IsPart};
ghost use Rattle.vir_profile.specs.Profiles.{first_weight, restrict};
ghost use Rattle.vir_profile.specs.declared.ballot.Entry.{Entry};
ghost use Rattle.vir_mean.specs.Modules.{plurality_winners, winners_elected};
ghost use Rattle.vir_counter.specs.Twos.{IsTwo};

use vir_profile::{AltSet, Split};
use vir_tables::Election;

/// The two members of a set that has two, the smaller number first.
pub(crate) fn two_of(domain: &AltSet) -> Option<(u16, u16)>
    ensures { IfSome result (λ two. IsTwo domain.now two.0 two.1) }
{
    domain.bounded();
    let x = domain.first_after(0)?;
    let y = domain.first_after(x)?;
    match domain.first_after(y) {
        Some(_) => None,
        None => Some((x, y)),
    }
}

// Those of two whom no fewer voters put first than the other, by these numbers of voters.
fn winners_of_two(domain: &AltSet, x: u16, y: u16, for_x: u64, for_y: u64) -> AltSet
    requires { IsTwo domain.now x y }
    ensures { (lines : List Entry) → first_weight lines x ≡ for_x → first_weight lines y ≡ for_y
        → result ≡ plurality_winners domain.now lines }
{
    domain.bounded();
    if for_x < for_y {
        domain.without(x)
    } else if for_y < for_x {
        domain.without(y)
    } else {
        *domain
    }
}

/// The split by plurality of a set of two. It goes over the ballots once.
pub(crate) fn split_of_two(election: &Election, domain: &AltSet, x: u16, y: u16) -> Split
    requires two { IsTwo domain.now x y }
    requires part { IsPart domain.now (all election.now.profile.alternatives) }
    ensures { result ≡ winners_elected domain.now (restrict domain.now election.now.profile.lines) }
{
    let (for_x, for_y) = election.prefers_each(x, y);
    let elected = winners_of_two(domain, x, y, for_x, for_y);
    Split {
        elected,
        rejected: domain.minus(&elected),
        deferred: AltSet::empty(),
    }
}
