// The positional scores of all members of a set, added up in one pass over the lines.
ghost use Rattle.std.specs.Prelude.{◌≡◌, ◌+◌, ◌*◌, ◌<◌, ◌≤◌, ◌^◌, ℕ, true, length, slice_index};
ghost use Rattle.std.specs.FinSet as set;
ghost use Rattle.vir_altset.specs.Sets.{all, limit, IsPart};
ghost use Rattle.vir_mean.specs.Numbers.{number_of};
ghost use Rattle.vir_profile.specs.Profiles.{restrict};
ghost use Rattle.vir_tables.specs.Additions.{AreAlternatives};
ghost use Rattle.vir_tables.specs.Marks.{is_marked};
ghost use Rattle.vir_positional.specs.Gains.{gained, AreFirst};
ghost use Rattle.vir_positional.specs.Positional.{weighed};
ghost use Rattle.vir_positional.specs.Weights.{weight_of};

use crate::weighing::Weighing;
use vir_mean::PLACES;
use vir_profile::{AltSet, NARROW};
use vir_tables::{Election, MARKS, mark};

// Lists the weights of so many places.
fn list_weights<W: Weighing>(rule: &W, places: u16, weights: &mut [u64])
    requires few { places ≤ 1024 }
    requires size { length weights.old ≡ limit }
    ensures { AreFirst places (λ i. weight_of (W.kept rule.now) i places) weights.new }
{
    for place in 0..places {
        weights[usize::from(place)] = rule.weight(place, places);
    }
}

// Adds to the sum of each marked member what it gets of a line: from each of its voters the weight of the
// place at which the member stands among the marked ones.
fn add_line(sums: &mut [u128], order: &[u16], marks: &[bool], weights: &[u64], voters: u64)
    requires size { length sums.old ≡ limit }
    requires marks { length marks.now ≡ MARKS }
    requires weights { length weights.now ≡ limit }
    requires listed { AreAlternatives limit order.now }
    requires few { length order.now ≤ limit }
    requires room { (x : ℕ) → is_marked marks.now x ≡ true → 1 ≤ x → x ≤ limit
        → number_of sums.old x
        + gained (is_marked marks.now) (λ i. voters * slice_index weights.now i) x 0 order.now < 2 ^ 127 }
    ensures size { length sums.new ≡ limit }
    ensures added { (x : ℕ) → is_marked marks.now x ≡ true → 1 ≤ x → x ≤ limit
        → number_of sums.new x ≡ number_of sums.old x
        + gained (is_marked marks.now) (λ i. voters * slice_index weights.now i) x 0 order.now }
{
    let mut place = 0;
    for i in 0..order.len() {
        let x = order[i];
        if marks[usize::from(x)] {
            sums[usize::from(x) - 1] += u128::from(voters) * u128::from(weights[place]);
            place += 1;
        }
    }
}

/// Adds up, for each member of the domain, what it gets from all voters: that of x at place x - 1. It
/// asks once for the weight of each place, and follows each order once.
pub(crate) fn add_up<W: Weighing>(rule: &W, election: &Election, domain: &AltSet, sums: &mut [u128])
    requires part { IsPart domain.now (all election.now.profile.alternatives) }
    requires size { length sums.old ≡ limit }
    ensures size { length sums.new ≡ limit }
    ensures sums { (x : ℕ) → set.contains domain.now x ≡ true
        → number_of sums.new x ≡ weighed (λ i. weight_of (W.kept rule.now) i (set.len domain.now))
        (restrict domain.now election.now.profile.lines) x }
    ensures small { (x : ℕ) → set.contains domain.now x ≡ true → number_of sums.new x ≤ 1000000 * 2 ^ 64 }
{
    // that the weights and the number of voters are limited bounds the sums
    rule.form().bounded();
    let _alternatives = election.alternatives();
    let mut marks = [false; MARKS];
    mark(domain, &mut marks);
    let mut weights = [0u64; PLACES];
    list_weights(rule, domain.count(), &mut weights);
    sums.fill(0);
    let mut room = [0; NARROW];
    for i in 0..election.lines() {
        if let Some(line) = election.line(i) {
            add_line(
                sums,
                line.order.alternatives(&mut room),
                &marks,
                &weights,
                line.weight,
            );
        }
    }
}
