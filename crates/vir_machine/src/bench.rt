// Benches of counters.
ghost use Rattle.std.specs.Prelude.{◌≡◌, ◌≤◌, ◌↔◌, [], ◌∷◌, ◌++◌, length, true, nat_eq, if◌then◌else◌, slice_get};
ghost use Rattle.std.specs.Prelude.{IsNone, IsTrue, OnOk, OnErr};
ghost use Rattle.std.specs.Option.{option_copied};
ghost use Rattle.vir_altset.specs.Sets.{all, IsPart};
ghost use Rattle.vir_profile.specs.Profiles.{restrict};
ghost use Rattle.vir_term.specs.Kinds.{kind_of};
ghost use Rattle.vir_term.specs.Tree.{tree};
ghost use Rattle.vir_mean.specs.Modules.{leaf_mean};
ghost use Rattle.vir_counter.specs.Calls.{risen};
ghost use Rattle.vir_machine.specs.Bench.{views, kinds_of, calls_of, raised, is_served, first_serving};
ghost use Rattle.vir_machine.specs.Uses.{all_served, first_unserved};

use std::alloc::{AllocError, Global};
use vir_counter::Counter;
use vir_profile::{AltSet, Split};
use vir_tables::Election;
use vir_term::{Leaf, Term};

/// The counters that rules are run over, in the order in which they were pushed, and the number of runs.
/// Where more than one counter serves a module, the first of them is asked. No call hands out a
/// counter that was pushed.
#[derive(Drop)]
pub struct Bench {
    counters: Vec<Box<dyn Counter>>,
    runs: u64,
}

impl Bench {
    /// A bench without counters and runs. It takes no memory.
    pub fn new(alloc: Global) -> Bench
        ensures counters { views kinds made result.counters.items ≡ [] }
        ensures runs { result.runs ≡ 0 }
    {
        Bench {
            counters: Vec::new(alloc),
            runs: 0,
        }
    }

    /// Puts a counter behind the others. After want of memory the counter is dropped.
    pub fn push(&mut self, counter: Box<dyn Counter>) -> Result<(), AllocError>
        ensures ok { OnOk result (views kinds made self.new.counters.items ≡ views kinds made self.old.counters.items
            ++ record { kinds = kinds counter; calls = made counter } ∷ []) }
        ensures err { OnErr result
            (views kinds made self.new.counters.items ≡ views kinds made self.old.counters.items) }
        ensures runs { self.new.runs ≡ self.old.runs }
    {
        self.counters.push(counter)?;
        Ok(())
    }

    /// The number of counters.
    pub fn len(&self) -> usize
        ensures { result ≡ length (views kinds made self.now.counters.items) }
    {
        self.counters.len()
    }

    /// Whether it has no counters.
    pub fn is_empty(&self) -> bool
        ensures { IsTrue result ↔ (views kinds made self.now.counters.items ≡ []) }
    {
        self.counters.is_empty()
    }

    /// The number of runs. It stops at the greatest `u64`.
    pub fn runs(&self) -> u64
        ensures { result ≡ self.now.runs }
    {
        self.runs
    }

    /// The number of calls of the counter at index `i`, where there is one.
    pub fn calls_of(&self, i: usize) -> Option<u64>
        ensures { result ≡ slice_get (calls_of (views kinds made self.now.counters.items)) i }
    {
        match self.counters.get(i) {
            None => None,
            Some(counter) => Some(counter.calls()),
        }
    }

    /// Whether each module of the term is served by some counter.
    pub fn serves_all(&self, term: &Term) -> bool
        ensures { result ≡ all_served (kinds_of (views kinds made self.now.counters.items)) (tree term.now) }
    {
        self.first_unserved(term).is_none()
    }

    /// The first module of the term, from left to right as it is written, that no counter serves.
    pub fn first_unserved<'a>(&self, term: &'a Term) -> Option<&'a Leaf>
        ensures first { option_copied result
            ≡ first_unserved (kinds_of (views kinds made self.now.counters.items)) (tree term.now) }
        ensures none { IsNone result
            ↔ IsTrue (all_served (kinds_of (views kinds made self.now.counters.items)) (tree term.now)) }
    {
        match term {
            Term::Leaf(leaf) => { if self.serves(leaf) { None } else { Some(leaf) } }
            Term::Rev(part) => self.first_unserved(part),
            Term::Seq(first, second) | Term::Par(first, second) => {
                match self.first_unserved(first) {
                    Some(leaf) => Some(leaf),
                    None => self.first_unserved(second),
                }
            }
            Term::Loop { body, .. } | Term::Until { body, .. } => self.first_unserved(body),
        }
    }

    // Whether some counter serves the module.
    fn serves(&self, leaf: &Leaf) -> bool
        ensures { result ≡ is_served (kinds_of (views kinds made self.now.counters.items)) (kind_of leaf.now) }
    {
        self.place(leaf) < self.counters.len()
    }

    // The index of the first counter that serves the module, or the number of counters where none does.
    fn place(&self, leaf: &Leaf) -> usize
        ensures { result ≡ first_serving (kinds_of (views kinds made self.now.counters.items)) (kind_of leaf.now) }
    {
        first_place(&self.counters, leaf)
    }

    // The split that the module gives of a set of the election's alternatives, by the first counter that
    // serves it.
    pub(crate) fn ask(&mut self, leaf: &Leaf, election: &Election, domain: &AltSet) -> Split
        requires served { is_served (kinds_of (views kinds made self.old.counters.items)) (kind_of leaf.now) ≡ true }
        requires part { IsPart domain.now (all election.now.profile.alternatives) }
        ensures meaning { result ≡ leaf_mean leaf.now domain.now (restrict domain.now election.now.profile.lines) }
        ensures counted { let old = views kinds made self.old.counters.items in
            let place = first_serving (kinds_of old) (kind_of leaf.now) in
            views kinds made self.new.counters.items ≡ raised (λ i. if nat_eq i place then 1 else 0) old }
        ensures runs { self.new.runs ≡ self.old.runs }
    {
        let i = self.place(leaf);
        self.counters[i].split(leaf, election, domain)
    }

    // Counts one run more, or none where their number is the greatest.
    pub(crate) fn count_run(&mut self)
        ensures runs { self.new.runs ≡ risen self.old.runs 1 }
        ensures counters { views kinds made self.new.counters.items ≡ views kinds made self.old.counters.items }
    {
        self.runs = self.runs.saturating_add(1);
    }
}

// The index of the first of these counters that serves the module, or their number where none does.
fn first_place(counters: &[Box<dyn Counter>], leaf: &Leaf) -> usize
    ensures first { result ≡ first_serving (kinds_of (views kinds made counters.now)) (kind_of leaf.now) }
    ensures within { result ≤ length counters.now }
{
    match counters {
        [] => 0,
        [first, rest @ ..] => {
            if first.serves(leaf) {
                0
            } else {
                1 + first_place(rest, leaf)
            }
        }
    }
}
