// Profiles, and which lines they take.
ghost use Rattle.std.specs.Prelude.{◌≡◌, None, ◌≤◌, ◌<◌, [], ◌∷◌, ◌++◌, length, slice_get, IfErr, OnOk, OnErr};
ghost use Rattle.std.specs.Prelude.{unwrap_or};
ghost use Rattle.std.specs.Option.{option_copied};
ghost use Rattle.vir_altset.specs.Sets.{limit};
ghost use Rattle.vir_profile.specs.Profiles.{total_weight, IsProfile};
ghost use Rattle.vir_profile.specs.Add.{add_fault};
ghost use Rattle.vir_profile.specs.OrderFaults.{order_fault};

use crate::ballot::{Ballot, Entry};
use crate::refused::{AddFault, Refused};
use std::alloc::Global;
use std::marker::Model;
use vir_altset::AltSet;

/// How many lines a profile may have.
pub const LINES_LIMIT: usize = 1_000_000;

/// A profile on the alternatives from 1 on.
#[derive(Debug, Drop)]
pub struct Profile {
    alternatives: u16,
    lines: Vec<Entry>,
    total: u64,
}

impl Model for Profile {
    ghost use Rattle.std.specs.Prelude.{◌≡◌};
    ghost use Rattle.vir_profile.specs.Profiles.{Votes, total_weight, IsProfile};

    ghost Value = { Votes };

    ghost view = { λ p. record { alternatives = p.alternatives; lines = p.lines.items } };

    ghost invariant = { λ p. (p.total ≡ total_weight p.lines.items)
        × IsProfile (record { alternatives = p.alternatives; lines = p.lines.items }) };
}

// The first fault of an order of so many alternatives.
fn judge_order(order: &Ballot, alternatives: u16) -> Option<AddFault>
    requires { alternatives ≤ limit }
    ensures { result ≡ order_fault alternatives order.now }
{
    let mut seen = AltSet::empty();
    for i in 0..order.len() {
        let x = order.at(i);
        if x == 0 || x > alternatives {
            return Some(AddFault::OutOfRange);
        }
        if seen.has(x) {
            return Some(AddFault::Repeated);
        }
        seen.put(x);
    }
    if order.len() < usize::from(alternatives) {
        Some(AddFault::Short)
    } else {
        None
    }
}

impl Profile {
    /// The profile of so many alternatives without a line.
    pub fn new(alloc: Global, alternatives: u16) -> Profile
        requires some { 1 ≤ alternatives }
        requires few { alternatives ≤ limit }
        ensures { result ≡ record { alternatives = alternatives; lines = [] } }
    {
        Profile {
            alternatives,
            lines: Vec::new(alloc),
            total: 0,
        }
    }

    /// Appends a line, or hands it back with its first fault in the order of `AddFault`.
    pub fn add(&mut self, entry: Entry) -> Result<(), Refused>
        ensures accepted { OnOk result (add_fault self.old entry ≡ None) }
        ensures appended { OnOk result (self.new ≡ record self.old { lines = self.old.lines ++ entry ∷ [] }) }

        // The fault is the first one, and want of memory where there is none.
        ensures refused { IfErr result (λ r. r ≡ record {
          fault = unwrap_or (add_fault self.old entry) AddFault.Memory;
          entry = entry;
        }) }
        ensures unchanged { OnErr result (self.new ≡ self.old) }
    {
        if let Some(fault) = judge_order(&entry.order, self.alternatives) {
            return Err(Refused { fault, entry });
        }
        self.add_judged(entry)
    }

    /// Appends a line of whose order it is known that nothing is wrong with it, as `add` does, but
    /// without a look at the order.
    pub fn add_judged(&mut self, entry: Entry) -> Result<(), Refused>
        requires { order_fault self.old.alternatives entry.order ≡ None }
        ensures accepted { OnOk result (add_fault self.old entry ≡ None) }
        ensures appended { OnOk result (self.new ≡ record self.old { lines = self.old.lines ++ entry ∷ [] }) }
        ensures refused { IfErr result (λ r. r ≡ record {
          fault = unwrap_or (add_fault self.old entry) AddFault.Memory;
          entry = entry;
        }) }
        ensures unchanged { OnErr result (self.new ≡ self.old) }
    {
        if self.lines.len() >= LINES_LIMIT {
            let fault = AddFault::TooManyOrders;
            return Err(Refused { fault, entry });
        }
        let Some(total) = self.total.checked_add(entry.weight) else {
            let fault = AddFault::TooManyVoters;
            return Err(Refused { fault, entry });
        };
        if let Err(failed) = self.lines.push(entry) {
            let fault = AddFault::Memory;
            return Err(Refused {
                fault,
                entry: failed.value,
            });
        }
        self.total = total;
        Ok(())
    }

    /// How many lines it has.
    pub fn lines(&self) -> usize
        ensures { result ≡ length self.now.lines }
    {
        self.lines.len()
    }

    /// The line at a place, from 0 on; None exactly where there is none.
    pub fn line(&self, i: usize) -> Option<&Entry>
        ensures { option_copied result ≡ slice_get self.now.lines i }
    {
        self.lines.get(i)
    }

    /// All lines, in order.
    pub fn entries(&self) -> &[Entry]
        ensures lines { result.now ≡ self.now.lines }
        ensures limits { IsProfile self.now }
    {
        self.lines.as_slice()
    }

    /// The sum of the weights.
    pub fn total(&self) -> u64
        ensures { result ≡ total_weight self.now.lines }
    {
        self.total
    }

    /// The number of alternatives.
    pub fn alternatives(&self) -> u16
        ensures number { result ≡ self.now.alternatives }
        ensures limits { IsProfile self.now }
    {
        self.alternatives
    }
}
