// Whether one profile is another in which one alternative is lifted.
ghost use Rattle.std.specs.Prelude.{◌≡◌, ◌≢◌, ◌≤◌, ◌↔◌, List, ℕ, [], ◌∷◌, length, drop, IsTrue, MatchOption};
ghost use Rattle.std.specs.Bool.{OnTrue};
ghost use Rattle.vir_altset.specs.Sets.{limit};
ghost use Rattle.vir_mean.specs.FixedOrders.{place};
ghost use Rattle.vir_mean.specs.Lifts.{without, Raises, Lifts};
ghost use Rattle.vir_refute.specs.Cases.{IsLift};
ghost use Rattle.vir_refute.specs.Judged.{election_of};

use vir_profile::{Entry, NARROW, Profile};

// The place after y, where y is the next alternative other than x from a place on.
fn after_next(order: &[u16], from: usize, x: u16, y: u16) -> Option<usize>
    requires within { from ≤ length order.now }
    ensures { MatchOption result
        ((rest : List ℕ) → without x (drop from order.now) ≢ y ∷ rest)
        (λ next. (next ≤ length order.now)
        × (without x (drop from order.now) ≡ y ∷ without x (drop next order.now))) }
{
    for i in from..order.len() {
        if order[i] != x {
            return (order[i] == y).then_some(i + 1);
        }
    }
    None
}

// Whether no alternative but x stands from a place on.
fn no_other(order: &[u16], from: usize, x: u16) -> bool
    requires { from ≤ length order.now }
    ensures { IsTrue result ↔ (without x (drop from order.now) ≡ []) }
{
    for i in from..order.len() {
        if order[i] != x {
            return false;
        }
    }
    true
}

// Whether two orders are the same without x.
fn same_but(before: &[u16], after: &[u16], x: u16) -> bool
    ensures { IsTrue result ↔ (without x before.now ≡ without x after.now) }
{
    let mut place = 0;
    for y in after {
        if *y != x {
            match after_next(before, place, x, *y) {
                Some(next) => place = next,
                None => return false,
            }
        }
    }
    no_other(before, place, x)
}

// Where x stands in an order; the end where it doesn't.
fn place_of(order: &[u16], x: u16) -> usize
    ensures { result ≡ place x order.now }
{
    for i in 0..order.len() {
        if order[i] == x {
            return i;
        }
    }
    order.len()
}

// Whether a line is another in which x stands where it stood, or nearer the front.
fn raises(before: &Entry, after: &Entry, x: u16) -> bool
    ensures { IsTrue result ↔ Raises x before.now after.now }
{
    let mut room_before = [0; NARROW];
    let mut room_after = [0; NARROW];
    let order_before = before.order.alternatives(&mut room_before);
    let order_after = after.order.alternatives(&mut room_after);
    before.weight == after.weight
        && same_but(order_before, order_after, x)
        && place_of(order_after, x) <= place_of(order_before, x)
}

// Whether this is so line by line.
fn lifts(before: &[Entry], after: &[Entry], x: u16) -> bool
    ensures { IsTrue result ↔ Lifts x before.now after.now }
{
    if before.len() != after.len() {
        return false;
    }
    for i in 0..before.len() {
        if !raises(&before[i], &after[i], x) {
            return false;
        }
    }
    true
}

// Whether two profiles have as many alternatives, and x is one of them.
fn may_be_lifted(first: &Profile, second: &Profile, x: u16) -> bool
    ensures { IsTrue result ↔ ((first.now.alternatives ≡ second.now.alternatives) × (1 ≤ x)
        × (x ≤ first.now.alternatives)) }
{
    first.alternatives() == second.alternatives() && x >= 1 && x <= first.alternatives()
}

/// Whether the second profile is the first one with x lifted: with as many alternatives, of which x is
/// one. It goes over the lines once, and over each order a few times.
pub fn is_lift(first: &Profile, second: &Profile, x: u16) -> bool
    ensures lift { IsTrue result ↔ IsLift (election_of first.now) (election_of second.now) x }
    ensures alternative { OnTrue result ((1 ≤ x) × (x ≤ limit)) }
{
    may_be_lifted(first, second, x) && lifts(first.entries(), second.entries(), x)
}
