// First places among the members of a set, added up over the lines.
ghost use Rattle.std.specs.Prelude.{◌≡◌, ◌+◌, ◌<◌, ◌≤◌, ◌^◌, ℕ, All, filter, true, length, if◌then◌else◌};
ghost use Rattle.std.specs.FinSet as set;
ghost use Rattle.std.specs.List.{find};
ghost use Rattle.vir_altset.specs.Sets.{limit};
ghost use Rattle.vir_mean.specs.Numbers.{AreNumbers, number_of};
ghost use Rattle.vir_profile.specs.Orders.{begins_with};
ghost use Rattle.vir_profile.specs.Profiles.{first_weight, restrict, total_weight};
ghost use Rattle.vir_tables.specs.Additions.{AreAlternatives};
ghost use Rattle.vir_tables.specs.Marks.{is_marked};

use vir_mean::PLACES;
use vir_profile::{AltSet, Ballot, Entry, LIMIT};

/// The places of a list of marks: one for each alternative, at its number.
pub const MARKS: usize = PLACES + 1;

/// Marks the members of a set, each at its number.
pub fn mark(domain: &AltSet, marks: &mut [bool])
    requires size { length marks.old ≡ MARKS }
    ensures size { length marks.new ≡ MARKS }
    ensures marked { (x : ℕ) → is_marked marks.new x ≡ set.contains domain.now x }
{
    domain.bounded();
    marks.fill(false);
    let mut last = 0;
    for _turn in 0..LIMIT {
        match domain.first_after(last) {
            Some(x) => {
                marks[usize::from(x)] = true;
                last = x;
            }
            None => return,
        }
    }
}

// The first alternative of the order that is marked.
fn first_marked(order: &Ballot, marks: &[bool]) -> Option<u16>
    requires marks { length marks.now ≡ MARKS }
    requires listed { AreAlternatives limit order.now }
    ensures { result ≡ find (is_marked marks.now) order.now }
{
    for i in 0..order.len() {
        let x = order.at(i);
        if marks[usize::from(x)] {
            return Some(x);
        }
    }
    None
}

// Whether x is the first alternative of the order that is marked.
fn is_first(order: &Ballot, marks: &[bool], x: u16) -> bool
    requires marks { length marks.now ≡ MARKS }
    requires listed { AreAlternatives limit order.now }
    ensures { result ≡ begins_with x (filter (is_marked marks.now) order.now) }
{
    first_marked(order, marks) == Some(x)
}

// Adds the weight at the first alternative of the order that is marked.
fn add_first(weights: &mut [u64], order: &Ballot, marks: &[bool], weight: u64)
    requires size { length weights.old ≡ limit }
    requires marks { length marks.now ≡ MARKS }
    requires listed { AreAlternatives limit order.now }
    requires room { (x : ℕ) → 1 ≤ x → x ≤ limit → begins_with x (filter (is_marked marks.now) order.now) ≡ true
        → number_of weights.old x + weight < 2 ^ 64 }
    ensures size { length weights.new ≡ limit }
    ensures added { (x : ℕ) → 1 ≤ x → x ≤ limit
        → number_of weights.new x ≡ number_of weights.old x
        + (if begins_with x (filter (is_marked marks.now) order.now) then weight else 0) }
{
    if let Some(x) = first_marked(order, marks) {
        weights[usize::from(x) - 1] += weight;
    }
}

/// How many voters put x first among the members of the set. It stops in each line at the first
/// member.
pub fn first_weight_of(lines: &[Entry], domain: &AltSet, x: u16) -> u64
    requires listed { All (λ line. AreAlternatives limit line.order) lines.now }
    requires voters { total_weight lines.now < 2 ^ 64 }
    ensures { result ≡ first_weight (restrict domain.now lines.now) x }
{
    let mut marks = [false; MARKS];
    mark(domain, &mut marks);
    let mut weight = 0;
    for line in lines {
        if is_first(&line.order, &marks, x) {
            weight += line.weight;
        }
    }
    weight
}

/// For each alternative, how many voters put it first among the members of the set: the number of
/// x at place x - 1, and 0 for what is not in the set. It goes over the lines once.
pub fn first_weights_of(lines: &[Entry], domain: &AltSet, weights: &mut [u64])
    requires size { length weights.old ≡ limit }
    requires listed { All (λ line. AreAlternatives limit line.order) lines.now }
    requires voters { total_weight lines.now < 2 ^ 64 }
    ensures { AreNumbers (first_weight (restrict domain.now lines.now)) weights.new }
{
    let mut marks = [false; MARKS];
    mark(domain, &mut marks);
    weights.fill(0);
    for line in lines {
        add_first(weights, &line.order, &marks, line.weight);
    }
}
