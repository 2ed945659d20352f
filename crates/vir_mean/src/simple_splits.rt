// Splits that several modules give.
ghost use Rattle.std.specs.Prelude.{◌≡◌};
ghost use Rattle.std.specs.FinSet as set;
ghost use Rattle.vir_mean.specs.Undecided.{undecided};

use vir_profile::{AltSet, Split};

/// All are elected.
pub fn elect_all(domain: &AltSet) -> Split
    ensures { result ≡ record { elected = domain.now; rejected = set.empty; deferred = set.empty } }
{
    Split {
        elected: *domain,
        rejected: AltSet::empty(),
        deferred: AltSet::empty(),
    }
}

/// All are deferred.
pub fn defer_all(domain: &AltSet) -> Split
    ensures { result ≡ undecided domain.now }
{
    elect_none(&AltSet::empty(), domain)
}

/// Nobody is elected: these are rejected, and those deferred.
pub fn elect_none(rejected: &AltSet, deferred: &AltSet) -> Split
    ensures { result ≡ record { elected = set.empty; rejected = rejected.now; deferred = deferred.now } }
{
    Split {
        elected: AltSet::empty(),
        rejected: *rejected,
        deferred: *deferred,
    }
}
