// The Condorcet winner of a profile.
ghost use Rattle.std.specs.Prelude.{◌≡◌, ◌≢◌, ◌<◌, ◌≤◌, ◌↔◌, ℕ, IsTrue, IfSome, MatchOption};
ghost use Rattle.vir_altset.specs.Sets.{all};
ghost use Rattle.vir_profile.specs.Profiles.{pairwise_weight};
ghost use Rattle.vir_profile.specs.Winners.{IsCondorcetWinner};
ghost use Rattle.vir_refute.specs.Judged.{election_of};
ghost use Rattle.vir_refute.specs.Violations.{HasWinner};

use vir_mean::{Lines, Tally};
use vir_profile::{AltSet, Profile};

// Whether more voters put x before y than y before x.
fn beats(profile: &Profile, x: u16, y: u16) -> bool
    requires first { (1 ≤ x) × (x ≤ profile.now.alternatives) }
    requires second { (1 ≤ y) × (y ≤ profile.now.alternatives) }
    requires apart { x ≢ y }
    ensures { IsTrue result ↔ (pairwise_weight profile.now.lines y x < pairwise_weight profile.now.lines x y) }
{
    let all = AltSet::all(profile.alternatives());
    let lines = Lines {
        lines: profile.entries(),
    };
    lines.beats(&all, x, y)
}

// The only alternative that can be the winner: each other one is known not to beat some alternative.
fn only_candidate(profile: &Profile) -> u16
    ensures member { (1 ≤ result) × (result ≤ profile.now.alternatives) }
    ensures only { (w : ℕ) → IsCondorcetWinner w (all profile.now.alternatives) profile.now.lines → w ≡ result }
{
    let mut candidate = 1;
    for y in 2..profile.alternatives() + 1 {
        if !beats(profile, candidate, y) {
            candidate = y;
        }
    }
    candidate
}

// Whether it beats each other alternative.
fn is_winner(profile: &Profile, x: u16) -> bool
    requires { (1 ≤ x) × (x ≤ profile.now.alternatives) }
    ensures { IsTrue result ↔ IsCondorcetWinner x (all profile.now.alternatives) profile.now.lines }
{
    for y in 1..profile.alternatives() + 1 {
        if y != x && !beats(profile, x, y) {
            return false;
        }
    }
    true
}

/// The Condorcet winner, if there is one. It asks about at most twice as many pairs as there are
/// alternatives, and goes over the lines for each.
pub fn condorcet_winner(profile: &Profile) -> Option<u16>
    ensures winner { MatchOption result (HasWinner (election_of profile.now) → ⊥)
        (λ w. IsCondorcetWinner w (all profile.now.alternatives) profile.now.lines) }
    ensures member { IfSome result (λ w. (1 ≤ w) × (w ≤ profile.now.alternatives)) }
{
    let candidate = only_candidate(profile);
    if is_winner(profile, candidate) {
        Some(candidate)
    } else {
        None
    }
}
