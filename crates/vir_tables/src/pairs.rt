// How many voters put one alternative before another, added up over the lines.
ghost use Rattle.std.specs.Prelude.{◌≡◌, ◌<◌, ◌^◌, false, nat_eq, if◌then◌else◌};
ghost use Rattle.std.specs.List.{find, list_any};
ghost use Rattle.vir_profile.specs.Orders.{puts_before};
ghost use Rattle.vir_profile.specs.Profiles.{pairwise_weight, total_weight};
ghost use Rattle.vir_tables.specs.Pairs.{is_one_of};

use vir_profile::{Ballot, Entry, NARROW, Room};

// How many places of an order are looked at together.
const TOGETHER: usize = 32;

// Whether the order puts x before y.
fn puts_before(order: &Ballot, x: u16, y: u16) -> bool
    ensures { result ≡ puts_before x y order.now }
{
    for i in 0..order.len() {
        let z = order.at(i);
        if z == y {
            return false;
        }
        if z == x {
            return true;
        }
    }
    false
}

/// How many voters put x before y. It stops in each line at the first of the two.
pub fn pairwise_weight_of(lines: &[Entry], x: u16, y: u16) -> u64
    requires { total_weight lines.now < 2 ^ 64 }
    ensures { result ≡ pairwise_weight lines.now x y }
{
    let mut weight = 0;
    for line in lines {
        if puts_before(&line.order, x, y) {
            weight += line.weight;
        }
    }
    weight
}

// Whether one of the two stands at one of these places. Each place is looked at, which a processor does for many at
// once.
fn has_one_of(places: &[u16], x: u16, y: u16) -> bool
    ensures { result ≡ list_any (is_one_of x y) places.now }
{
    let mut has = false;
    for i in 0..places.len() {
        let z = places[i];
        has |= (z == x) | (z == y);
    }
    has
}

// The order without places at its front at which neither of the two stands.
fn without_others(order: &[u16], x: u16, y: u16) -> &[u16]
    ensures { find (is_one_of x y) result.now ≡ find (is_one_of x y) order.now }
{
    let mut rest = order;
    while rest.len() >= TOGETHER {
        let (front, behind) = rest.split_at(TOGETHER);
        if has_one_of(front, x, y) {
            return rest;
        }
        rest = behind;
    }
    rest
}

// Which of the two stands first in the order.
fn first_of_two(order: &[u16], x: u16, y: u16) -> Option<u16>
    ensures { result ≡ find (is_one_of x y) order.now }
{
    let rest = without_others(order, x, y);
    for i in 0..rest.len() {
        let z = rest[i];
        if z == x || z == y {
            return Some(z);
        }
    }
    None
}

// How many voters of a line put x before y, and how many y before x.
fn weights_in(line: &Entry, room: &mut Room, x: u16, y: u16) -> (u64, u64)
    requires { nat_eq x y ≡ false }
    ensures { result ≡ (
      if puts_before x y line.now.order then line.now.weight else 0,
      if puts_before y x line.now.order then line.now.weight else 0,
    ) }
{
    match first_of_two(line.order.alternatives(room), x, y) {
        Some(z) => if z == x {
            (line.weight, 0)
        } else {
            (0, line.weight)
        },
        None => (0, 0),
    }
}

/// How many voters put x before y, and how many y before x. It goes over the lines once, and stops in each at the first
/// of the two.
pub fn pairwise_weights_of(lines: &[Entry], x: u16, y: u16) -> (u64, u64)
    requires apart { nat_eq x y ≡ false }
    requires voters { total_weight lines.now < 2 ^ 64 }
    ensures { result ≡ (pairwise_weight lines.now x y, pairwise_weight lines.now y x) }
{
    let mut room = [0; NARROW];
    let mut before = 0;
    let mut behind = 0;
    for line in lines {
        let weights = weights_in(line, &mut room, x, y);
        before += weights.0;
        behind += weights.1;
    }
    (before, behind)
}
