// What the modules ask of ballots.
ghost use Rattle.std.specs.Prelude.{◌≡◌, ◌≢◌, true, length, List};
ghost use Rattle.std.specs.FinSet as set;
ghost use Rattle.vir_altset.specs.Sets.{Set, limit};
ghost use Rattle.vir_profile.specs.declared.ballot.Entry.{Entry};
ghost use Rattle.vir_profile.specs.Profiles.{total_weight, pairwise_weight, first_weight};
ghost use Rattle.vir_mean.specs.Numbers.{AreNumbers};
ghost use Rattle.vir_mean.specs.Scores.{beats};

use vir_profile::{AltSet, LIMIT};

/// A place for each alternative: how long the arrays are in which numbers are kept for each.
pub const PLACES: usize = LIMIT as usize;

/// What is asked of ballots that are restricted to a set, the domain.
pub trait Tally {
    /// The sets that it may be asked about.
    ghost may: { Self → Set → Type 0 };

    /// The ballots, restricted to the domain.
    ghost lines: { Self → Set → List Entry };

    /// The number of voters.
    fn voters(&self, domain: &AltSet) -> u64
        requires { may self.now domain.now }
        ensures { result ≡ total_weight (lines self.now domain.now) };

    /// How many voters put x before y.
    fn prefers(&self, domain: &AltSet, x: u16, y: u16) -> u64
        requires may { may self.now domain.now }
        requires apart { x ≢ y }
        requires first_in { set.contains domain.now x ≡ true }
        requires second_in { set.contains domain.now y ≡ true }
        ensures { result ≡ pairwise_weight (lines self.now domain.now) x y };

    /// Whether more voters put x before y than y before x.
    fn beats(&self, domain: &AltSet, x: u16, y: u16) -> bool
        requires may { may self.now domain.now }
        requires apart { x ≢ y }
        requires first_in { set.contains domain.now x ≡ true }
        requires second_in { set.contains domain.now y ≡ true }
        ensures { result ≡ beats (lines self.now domain.now) x y };

    /// How many voters put x first.
    fn first_weight(&self, domain: &AltSet, x: u16) -> u64
        requires may { may self.now domain.now }
        requires member { set.contains domain.now x ≡ true }
        ensures { result ≡ first_weight (lines self.now domain.now) x };

    /// How many voters put x first, for each alternative x, at place x - 1. It goes over the ballots
    /// once.
    fn first_weights(&self, domain: &AltSet, weights: &mut [u64])
        requires may { may self.now domain.now }
        requires size { length weights.old ≡ limit }
        ensures { AreNumbers (first_weight (lines self.now domain.now)) weights.new };
}
