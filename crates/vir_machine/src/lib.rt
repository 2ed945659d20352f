//! Benches and the machine: the counters that a rule is run over, and what runs its code over them.
//!
//! A `Bench` is a list of counters and a number of runs. A bench is seen as the kinds and the calls of
//! its counters, in the order in which they were pushed; it tells of a term whether each of its modules
//! is served, and else which is the first that isn't; and a module is asked of the first counter that
//! serves it and of no other. A `Machine` is two stacks, made once for code up to a depth, so that no
//! run takes memory or can be refused. The contract of this layer is that of `Machine::run`: the split
//! is what the code's term means on the set, on the ballots restricted to it; each counter is called as
//! often as that meaning comes to it; and the run is counted. How often that is, is a matter of the
//! term, the set and the ballots alone (`specs/Uses.antt`), and for a loop that number goes turn by
//! turn, as its meaning does (`laws.rt`). It stands on `vir_code` for code, on `vir_compile` for what
//! code executes to, on `vir_counter`, whose objects a bench holds, on `vir_tables` for elections, and
//! on `vir_mean` and `vir_term` for what a term is and means.
#![tactic(auto)]

mod bench;
mod laws;
mod machine;
#[cfg(test)]
mod run_tests;
mod stack;
#[cfg(test)]
mod tests;

pub use bench::Bench;
pub use laws::uses_of_a_loop_go_by_turns;
pub use machine::Machine;
