// What carries out modules and counts its calls.
ghost use Rattle.std.specs.Prelude.{◌≡◌, true};
ghost use Rattle.vir_altset.specs.Sets.{all, IsPart};
ghost use Rattle.vir_profile.specs.Profiles.{restrict};
ghost use Rattle.vir_term.specs.Kinds.{kind_of};
ghost use Rattle.vir_mean.specs.Modules.{leaf_mean};
ghost use Rattle.vir_counter.specs.Calls.{risen};
ghost use Rattle.vir_counter.specs.Kinds.{has_kind};

use vir_profile::{AltSet, Split};
use vir_tables::Election;
use vir_term::Leaf;

/// An object that gives the splits of the modules of some kinds, and counts its calls.
pub trait Counter: Drop {
    ghost use Rattle.std.specs.Prelude.{ℕ, List};
    ghost use Rattle.vir_term.specs.declared.leaf.LeafKind.{LeafKind};

    /// The kinds of modules that it serves. They never change.
    ghost kinds: { Self → List LeafKind };

    /// How many calls of `split` it has counted.
    ghost made: { Self → ℕ };

    /// Whether it serves this module.
    fn serves(&self, leaf: &Leaf) -> bool
        ensures { result ≡ has_kind (kinds self.now) (kind_of leaf.now) };

    /// The split that a module which it serves gives of a set of the election's alternatives, by the
    /// ballots restricted to that set. The call is counted, also one on the empty set.
    fn split(&mut self, leaf: &Leaf, election: &Election, domain: &AltSet) -> Split
        requires served { has_kind (kinds self.old) (kind_of leaf.now) ≡ true }
        requires part { IsPart domain.now (all election.now.profile.alternatives) }
        ensures meaning { result ≡ leaf_mean leaf.now domain.now (restrict domain.now election.now.profile.lines) }
        ensures counted { made self.new ≡ risen (made self.old) 1 }
        ensures kept { kinds self.new ≡ kinds self.old };

    /// How many calls of `split` it has counted. The number stops at the greatest `u64`.
    fn calls(&self) -> u64
        ensures { result ≡ made self.now };
}
