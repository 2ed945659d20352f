// Lists of weights.
ghost use Rattle.std.specs.Prelude.{◌≡◌, true, length, slice_get, Some, None, if◌then◌else◌};
ghost use Rattle.vir_positional.specs.WeightLists.{are_weights, falls_from, last_weight};

use std::marker::Model;

// How many weights a list may have.
const LENGTH_LIMIT: usize = 1_024;

// The greatest weight.
const WEIGHT_LIMIT: u64 = 1_000_000;

/// The weights of the places of a ballot, that of the front first. They never rise. It is seen as the
/// list of them.
#[derive(Debug, Drop)]
pub struct Weights {
    list: Vec<u64>,
}

impl Model for Weights {
    ghost use Rattle.std.specs.Prelude.{List, ℕ, ◌≡◌, true};
    ghost use Rattle.vir_positional.specs.WeightLists.{are_weights};

    ghost Value = { List ℕ };

    ghost view = { λ a. a.list.items };

    ghost invariant = { λ a. are_weights a.list.items ≡ true };
}

// Whether no weight is greater than the one before it, nor the first than the limit.
fn never_rise(list: &[u64]) -> bool
    ensures { result ≡ falls_from 1000000 list.now }
{
    let mut before = WEIGHT_LIMIT;
    for i in 0..list.len() {
        let weight = list[i];
        if weight > before {
            return false;
        }
        before = weight;
    }
    true
}

// Whether a list is one of weights.
fn are_weights(list: &[u64]) -> bool
    ensures { result ≡ are_weights list.now }
{
    list.len() > 0 && list.len() <= LENGTH_LIMIT && never_rise(list)
}

impl Weights {
    /// The weights of this list, which is dropped where it isn't one of weights.
    pub fn of(list: Vec<u64>) -> Option<Weights>
        ensures { result ≡ (if are_weights list.items then Some list.items else None) }
    {
        if are_weights(list.as_slice()) {
            Some(Weights { list })
        } else {
            None
        }
    }

    /// How many weights it lists.
    pub fn len(&self) -> usize
        ensures { result ≡ length self.now }
    {
        self.list.len()
    }

    /// The weight at a place, from 0 on; None exactly where the list has ended.
    pub fn at(&self, i: usize) -> Option<u64>
        ensures { result ≡ slice_get self.now i }
    {
        self.list.get(i).copied()
    }

    /// Does nothing. Its clause tells a caller that the list is one of weights.
    pub fn bounded(&self)
        ensures { are_weights self.now ≡ true }
    {
        let _ = &self.list;
    }

    /// The last weight, which goes for all places past it.
    pub fn last(&self) -> u64
        ensures { result ≡ last_weight self.now }
    {
        self.list[self.list.len() - 1]
    }
}
