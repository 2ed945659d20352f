// Orders that do not depend on the ballots.
ghost use Rattle.std.specs.Prelude.{◌≡◌, ◌<◌, ◌↔◌, IsTrue, IfOk, None, Some, [], length, slice_index, MatchResult};
ghost use Rattle.vir_term.specs.Orders.{order_fault};

use std::alloc::{AllocError, Global};
use std::marker::Model;

/// The greatest number that a fixed order may name.
pub const MEMBER_LIMIT: u16 = 1_024;

/// An order that does not depend on the ballots: these alternatives, and after them all others,
/// ascending. The empty one is the order of the numbers.
#[derive(Debug, Drop)]
pub struct FixedOrder {
    listed: Vec<u16>,
}

impl Model for FixedOrder {
    ghost use Rattle.std.specs.Prelude.{List, ℕ, ◌≡◌, None};
    ghost use Rattle.vir_term.specs.Orders.{order_fault};

    ghost Value = { List ℕ };

    ghost view = { λ order. order.listed.items };

    ghost invariant = { λ order. order_fault order.listed.items ≡ None };
}

/// Why a list is no fixed order. The first member that offends decides.
#[derive(Clone, Copy, Debug, PartialEq, Eq)]
pub enum OrderFault {
    /// A member isn't from 1 to `MEMBER_LIMIT`.
    OutOfRange,
    /// A member stood before.
    Repeated,
}

impl FixedOrder {
    /// The fixed order that begins with this list.
    pub fn of(list: Vec<u16>) -> Result<FixedOrder, OrderFault>
        ensures { MatchResult result (λ order. (order_fault list.items ≡ None) × (order ≡ list.items))
            (λ fault. order_fault list.items ≡ Some fault) }
    {
        for i in 0..list.len() {
            let x = list[i];
            if x == 0 || x > MEMBER_LIMIT {
                return Err(OrderFault::OutOfRange);
            }
            if list[..i].contains(&x) {
                return Err(OrderFault::Repeated);
            }
        }
        Ok(FixedOrder { listed: list })
    }

    /// How many alternatives are listed.
    pub fn len(&self) -> usize
        ensures length { result ≡ length self.now }
        ensures faultless { order_fault self.now ≡ None }
    {
        self.listed.len()
    }

    /// Whether none is listed, as in the order of the numbers.
    pub fn is_empty(&self) -> bool
        ensures { IsTrue result ↔ (self.now ≡ []) }
    {
        self.listed.is_empty()
    }

    /// The alternative at a place of the list, the first one at 0.
    pub fn at(&self, i: usize) -> u16
        requires { i < length self.now }
        ensures { result ≡ slice_index self.now i }
    {
        self.listed[i]
    }

    // The same order.
    pub(crate) fn copy(&self, alloc: Global) -> Result<FixedOrder, AllocError>
        ensures { IfOk result (λ order. order ≡ self.now) }
    {
        Ok(FixedOrder {
            listed: Vec::from_slice(alloc, &self.listed)?,
        })
    }

    /// Whether the two orders list the same.
    pub fn equals(&self, other: &FixedOrder) -> bool
        ensures { IsTrue result ↔ (self.now ≡ other.now) }
    {
        self.listed.as_slice() == other.listed.as_slice()
    }
}
