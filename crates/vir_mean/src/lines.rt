// The tally of ballots that are restricted already.
ghost use Rattle.std.specs.Prelude.{◌≡◌, ◌+◌, ◌<◌, ◌≤◌, ◌^◌, ℕ, true, cond, length};
ghost use Rattle.vir_altset.specs.Sets.{limit};
ghost use Rattle.vir_profile.specs.Orders.{puts_before, begins_with};
ghost use Rattle.vir_profile.specs.Profiles.{total_weight, pairwise_weight, first_weight};
ghost use Rattle.vir_mean.specs.Numbers.{number_of, AreNumbers};

use crate::tally::Tally;
use vir_profile::{AltSet, Ballot, Entry, LIMIT};

/// Ballots that are restricted already to the set that is asked about. Each number is added up
/// anew, line by line.
#[derive(Drop)]
pub struct Lines<'a> {
    pub lines: &'a [Entry],
}

// Whether the order puts x before y.
fn puts_before(order: &Ballot, x: u16, y: u16) -> bool
    ensures { result ≡ puts_before x y order.now }
{
    for i in 0..order.len() {
        let z = order.at(i);
        if z == y {
            return false;
        }
        if z == x {
            return true;
        }
    }
    false
}

// Whether the order begins with x.
fn begins_with(order: &Ballot, x: u16) -> bool
    ensures { result ≡ begins_with x order.now }
{
    order.len() > 0 && order.at(0) == x
}

// The number of voters.
fn total_weight(lines: &[Entry]) -> u64
    requires { total_weight lines.now < 2 ^ 64 }
    ensures { result ≡ total_weight lines.now }
{
    let mut sum = 0;
    for line in lines {
        sum += line.weight;
    }
    sum
}

// How many voters put x before y.
fn pairwise_weight(lines: &[Entry], x: u16, y: u16) -> u64
    requires { total_weight lines.now < 2 ^ 64 }
    ensures { result ≡ pairwise_weight lines.now x y }
{
    let mut sum = 0;
    for line in lines {
        if puts_before(&line.order, x, y) {
            sum += line.weight;
        }
    }
    sum
}

// How many voters put x first.
fn first_weight(lines: &[Entry], x: u16) -> u64
    requires { total_weight lines.now < 2 ^ 64 }
    ensures { result ≡ first_weight lines.now x }
{
    let mut sum = 0;
    for line in lines {
        if begins_with(&line.order, x) {
            sum += line.weight;
        }
    }
    sum
}

// Adds the weight of a line at its first alternative.
fn add_first_place(weights: &mut [u64], line: &Entry)
    requires size { length weights.old ≡ limit }
    requires room { (x : ℕ) → 1 ≤ x → x ≤ limit → begins_with x line.now.order ≡ true
        → number_of weights.old x + line.now.weight < 2 ^ 64 }
    ensures size { length weights.new ≡ limit }
    ensures added { (x : ℕ) → 1 ≤ x → x ≤ limit
        → number_of weights.new x ≡ number_of weights.old x + cond (begins_with x line.now.order) line.now.weight 0 }
{
    if line.order.len() == 0 {
        return;
    }
    let first = line.order.at(0);
    if first >= 1 && first <= LIMIT {
        weights[usize::from(first) - 1] += line.weight;
    }
}

// How many voters put each alternative first, in one pass over the lines.
fn add_up_first_places(lines: &[Entry], weights: &mut [u64])
    requires voters { total_weight lines.now < 2 ^ 64 }
    requires size { length weights.old ≡ limit }
    ensures { AreNumbers (first_weight lines.now) weights.new }
{
    weights.fill(0);
    for line in lines {
        add_first_place(weights, line);
    }
}

impl<'a> Tally for Lines<'a> {
    ghost may = { λ ballots domain. total_weight ballots.lines.now < 2 ^ 64 };

    ghost lines = { λ ballots domain. ballots.lines.now };

    fn voters(&self, domain: &AltSet) -> u64 {
        total_weight(self.lines)
    }

    fn prefers(&self, domain: &AltSet, x: u16, y: u16) -> u64 {
        pairwise_weight(self.lines, x, y)
    }

    fn beats(&self, domain: &AltSet, x: u16, y: u16) -> bool {
        pairwise_weight(self.lines, x, y) > pairwise_weight(self.lines, y, x)
    }

    fn first_weight(&self, domain: &AltSet, x: u16) -> u64 {
        first_weight(self.lines, x)
    }

    fn first_weights(&self, domain: &AltSet, weights: &mut [u64]) {
        add_up_first_places(self.lines, weights);
    }
}
