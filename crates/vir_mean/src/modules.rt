// What each module makes of a set.
ghost use Rattle.std.specs.Prelude.{◌≡◌, ◌<◌, ◌^◌};
ghost use Rattle.vir_profile.specs.Profiles.{total_weight};
ghost use Rattle.vir_mean.specs.Modules.{leaf_mean};

use crate::elimination::{Elimination, elect_plurality_winners, eliminate};
use crate::fixed_orders::first_members;
use crate::lines::Lines;
use crate::simple_splits::{defer_all, elect_all, elect_none};
use vir_profile::{AltSet, Entry, Split};
use vir_term::Leaf;

/// The split that a module gives of a set, by lines that are restricted to it.
pub fn leaf_result(leaf: &Leaf, lines: &[Entry], domain: &AltSet) -> Split
    requires { total_weight lines.now < 2 ^ 64 }
    ensures { result ≡ leaf_mean leaf.now domain.now lines.now }
{
    let tally = Lines { lines };
    match leaf {
        Leaf::Elect => elect_all(domain),
        Leaf::Defer => defer_all(domain),
        Leaf::PassFirst { k, order } => {
            let first = first_members(*k, order, domain);
            elect_none(&domain.minus(&first), &first)
        }
        Leaf::DropFirst { k, order } => {
            let first = first_members(*k, order, domain);
            elect_none(&first, &domain.minus(&first))
        }
        Leaf::Plurality => elect_plurality_winners(&tally, domain),
        Leaf::Max(score) => eliminate(Elimination::Max, *score, &tally, domain),
        Leaf::Min(score) => eliminate(Elimination::Min, *score, &tally, domain),
        Leaf::Below(score) => eliminate(Elimination::Below, *score, &tally, domain),
        Leaf::Upto(score) => eliminate(Elimination::Upto, *score, &tally, domain),
    }
}
