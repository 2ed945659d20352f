// What compositions make of the splits of their parts.
ghost use Rattle.std.specs.Prelude.{◌≡◌};
ghost use Rattle.vir_mean.specs.Compositions.{joined, merged, revised};

use vir_profile::{AltSet, Split};

/// A split of a set, and one of what it defers, as one split of the set.
pub fn join_in_sequence(first: &Split, second: &Split) -> Split
    ensures { result ≡ joined first.now second.now }
{
    Split {
        elected: first.elected.union(&second.elected),
        rejected: first.rejected.union(&second.rejected),
        deferred: second.deferred,
    }
}

/// Two splits of one set as one: elected by one of them, rejected by both, and else deferred.
pub fn join_in_parallel(first: &Split, second: &Split) -> Split
    ensures { result ≡ merged first.now second.now }
{
    let elected = first.elected.union(&second.elected);
    Split {
        elected,
        rejected: first.rejected.inter(&second.rejected),
        deferred: first.deferred.union(&second.deferred).minus(&elected),
    }
}

/// The revision of a split of a set: those elected are deferred, and the other members of the set are
/// rejected.
pub fn revise(split: &Split, domain: &AltSet) -> Split
    ensures { result ≡ revised domain.now split.now }
{
    Split {
        elected: AltSet::empty(),
        rejected: domain.minus(&split.elected),
        deferred: split.elected,
    }
}
