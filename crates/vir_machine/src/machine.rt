// What runs code.
ghost use Rattle.std.specs.Prelude.{◌≡◌, ◌≤◌, ◌<◌, ◌+◌, ◌^◌, Some, true, [], ◌∷◌, length, IfOk};
ghost use Rattle.std.specs.FinSet as set;
ghost use Rattle.vir_altset.specs.Sets.{all, IsPart};
ghost use Rattle.vir_altset.specs.Splits.{IsSplitOf};
ghost use Rattle.vir_profile.specs.Profiles.{restrict};
ghost use Rattle.vir_term.specs.Tree.{Tree};
ghost use Rattle.vir_mean.specs.Meaning.{mean};
ghost use Rattle.vir_counter.specs.Calls.{risen};
ghost use Rattle.vir_code.specs.Code.{code_of};
ghost use Rattle.vir_code.specs.Depth.{depth_of};
ghost use Rattle.vir_compile.specs.Exec.{State, state, act};
ghost use Rattle.vir_compile.specs.Calls.{called, calls_of};
ghost use Rattle.vir_machine.specs.Bench.{views, kinds_of, raised};
ghost use Rattle.vir_machine.specs.Uses.{all_served, uses};
ghost use Rattle.vir_machine.specs.Asked.{asked, call_served};

use crate::bench::Bench;
use crate::stack::Stack;
use std::alloc::{AllocError, Global};
use std::marker::Model;
use vir_code::{CODE_LIMIT, Code, Instr};
use vir_mean::{join_in_parallel, join_in_sequence, revise};
use vir_profile::{AltSet, Split};
use vir_tables::Election;

/// What runs code up to a depth: its two stacks, which are empty between runs. It is seen as the
/// depth.
#[derive(Drop)]
pub struct Machine {
    splits: Stack<Split>,
    domains: Stack<AltSet>,
    depth: usize,
}

impl Model for Machine {
    ghost use Rattle.std.specs.Prelude.{◌≡◌, ℕ, []};

    ghost Value = { ℕ };

    ghost view = { λ machine. machine.depth };

    ghost invariant = { λ machine. (machine.splits ≡ ([], machine.depth)) × (machine.domains ≡ ([], machine.depth)) };
}

impl Machine {
    /// A machine for code up to a depth. It takes all its memory now, and none for a run.
    pub fn new(alloc: Global, depth: usize) -> Result<Machine, AllocError>
        ensures { IfOk result (λ machine. machine ≡ depth) }
    {
        let splits = Stack::new(alloc, depth)?;
        let domains = Stack::new(alloc, depth)?;
        Ok(Machine {
            splits,
            domains,
            depth,
        })
    }

    /// Runs code on a part of the election's alternatives: the split is what the code's term means
    /// there. Each module is asked of the bench's first counter that serves it, as often as the
    /// meaning comes to it; and the bench counts the run.
    pub fn run(
        &mut self,
        code: &Code,
        election: &Election,
        bench: &mut Bench,
        domain: &AltSet,
    ) -> Split
        requires depth { (t : Tree) → code.now ≡ code_of t → depth_of t ≤ self.old }
        requires served { (t : Tree) × (code.now ≡ code_of t)
            × (all_served (kinds_of (views kinds made bench.old.counters.items)) t ≡ true) }
        requires part { IsPart domain.now (all election.now.profile.alternatives) }
        ensures meaning { (t : Tree) → code.now ≡ code_of t
            → result ≡ mean t domain.now (restrict domain.now election.now.profile.lines) }
        ensures split { IsSplitOf domain.now result }
        ensures calls { let old = views kinds made bench.old.counters.items in (t : Tree) → code.now ≡ code_of t
            → views kinds made bench.new.counters.items
            ≡ raised (λ i. uses i (kinds_of old) t domain.now (restrict domain.now election.now.profile.lines)) old }
        ensures runs { bench.new.runs ≡ risen bench.old.runs 1 }
        ensures depth { self.new ≡ self.old }
    {
        bench.count_run();
        let mut here = *domain;
        run_code(
            code,
            election,
            bench,
            &mut here,
            &mut self.splits,
            &mut self.domains,
        );
        self.splits.pop()
    }
}

// Runs code from its start to its end, on empty stacks.
fn run_code(
    code: &Code,
    election: &Election,
    bench: &mut Bench,
    here: &mut AltSet,
    splits: &mut Stack<Split>,
    domains: &mut Stack<AltSet>,
)
    requires empty { (splits.old.0 ≡ []) × (domains.old.0 ≡ []) }
    requires served { (t : Tree) × (code.now ≡ code_of t)
        × (all_served (kinds_of (views kinds made bench.old.counters.items)) t ≡ true) }
    requires room { (t : Tree) → code.now ≡ code_of t → (depth_of t ≤ splits.old.1) × (depth_of t ≤ domains.old.1) }
    requires part { IsPart here.old (all election.now.profile.alternatives) }
    ensures splits { (t : Tree) → code.now ≡ code_of t
        → splits.new ≡ (mean t here.old (restrict here.old election.now.profile.lines) ∷ [], splits.old.1) }
    ensures domains { domains.new ≡ ([], domains.old.1) }
    ensures calls { (t : Tree) → code.now ≡ code_of t
        → views kinds made bench.new.counters.items
        ≡ asked (calls_of t here.old (restrict here.old election.now.profile.lines))
        (views kinds made bench.old.counters.items) }
    ensures runs { bench.new.runs ≡ bench.old.runs }
{
    prove!(code.len() <= CODE_LIMIT);
    let mut place = 0;
    while let Some(instr) = code.at(place) {
        place = act(instr, place, election, bench, here, splits, domains);
    }
}

// Does one instruction, and gives the position of the next.
fn act(
    instr: &Instr,
    place: usize,
    election: &Election,
    bench: &mut Bench,
    here: &mut AltSet,
    splits: &mut Stack<Split>,
    domains: &mut Stack<AltSet>,
) -> usize
    requires leads { (next : State)
        × (act election.now.profile.lines instr.now (state place here.old splits.old.0 domains.old.0) ≡ Some next)
        × (length next.splits ≤ splits.old.1) × (length next.domains ≤ domains.old.1) }
    requires served { call_served (kinds_of (views kinds made bench.old.counters.items)) instr.now ≡ true }
    requires part { IsPart here.old (all election.now.profile.alternatives) }
    requires small { place + 1 < 2 ^ 64 }
    ensures leads { act election.now.profile.lines instr.now (state place here.old splits.old.0 domains.old.0)
        ≡ Some (state result here.new splits.new.0 domains.new.0) }
    ensures calls { views kinds made bench.new.counters.items ≡ asked (called instr.now)
        (views kinds made bench.old.counters.items) }
    ensures splits_room { splits.new.1 ≡ splits.old.1 }
    ensures domains_room { domains.new.1 ≡ domains.old.1 }
    ensures runs { bench.new.runs ≡ bench.old.runs }
{
    match instr {
        Instr::Call(leaf) => {
            splits.push(bench.ask(leaf, election, here));
            place + 1
        }
        Instr::KeepDomain => {
            domains.push(*here);
            place + 1
        }
        Instr::FetchDomain => {
            let top = splits.pop();
            *here = top.deferred;
            splits.push(top);
            place + 1
        }
        Instr::JoinSeq => {
            let second = splits.pop();
            let first = splits.pop();
            splits.push(join_in_sequence(&first, &second));
            *here = domains.pop();
            place + 1
        }
        Instr::JoinMax => {
            let second = splits.pop();
            let first = splits.pop();
            splits.push(join_in_parallel(&first, &second));
            place + 1
        }
        Instr::Revise => {
            let top = splits.pop();
            splits.push(revise(&top, here));
            place + 1
        }
        Instr::StartLoop => {
            domains.push(*here);
            splits.push(undecided(here));
            place + 1
        }
        Instr::LoopTest { k, exit } => {
            if u32::from(here.count()) == *k {
                *exit
            } else {
                place + 1
            }
        }
        Instr::UntilTest { k, exit } => {
            if u32::from(here.count()) <= *k {
                *exit
            } else {
                place + 1
            }
        }
        Instr::LoopBack { start } => {
            let turn = splits.pop();
            if is_part(here, &turn.deferred) {
                place + 1
            } else {
                let so_far = splits.pop();
                splits.push(join_in_sequence(&so_far, &turn));
                *here = turn.deferred;
                *start
            }
        }
        Instr::EndLoop => {
            *here = domains.pop();
            place + 1
        }
    }
}

// The split that defers all of a set.
fn undecided(domain: &AltSet) -> Split
    ensures { result ≡ record { elected = set.empty; rejected = set.empty; deferred = domain.now } }
{
    Split {
        elected: AltSet::empty(),
        rejected: AltSet::empty(),
        deferred: *domain,
    }
}

// Whether each member of one set is a member of the other.
fn is_part(part: &AltSet, whole: &AltSet) -> bool
    ensures { result ≡ set.is_subset part.now whole.now }
{
    part.minus(whole).equals(&AltSet::empty())
}
