//! Counters: the objects that carry out the modules of a rule on an election, and count their calls.
//!
//! The contract of this layer is the trait `Counter`: an object tells which modules it serves; the
//! split that it gives of a set is what the module of the call means there, as `vir_mean` defines it
//! on the election's ballots restricted to the set; and its number of calls rises by one each time,
//! until it has come to the greatest `u64`. The four counters serve all modules between them, one
//! `EliminatorCounter` for each score. A `PositionalCounter` may serve the eliminators of plurality or
//! of Borda in the place of one of these, by the weights of places. Counters begin with no calls, and
//! none of them takes memory. Of two alternatives plurality elects whom more voters prefer to the other, so
//! its counter asks for that pair alone. A `Box<dyn Counter>` is a counter as well. It stands on
//! `vir_score`, `vir_positional`, `vir_mean` and `vir_tables`.
#![tactic(auto)]

mod boxed;
mod calls;
mod counter;
mod eliminator_counter;
mod fixed_counter;
mod head_to_head;
mod order_counter;
mod plurality_counter;
mod positional_counter;
#[cfg(test)]
mod tests;

pub use counter::Counter;
pub use eliminator_counter::EliminatorCounter;
pub use fixed_counter::FixedCounter;
pub use order_counter::OrderCounter;
pub use plurality_counter::PluralityCounter;
pub use positional_counter::PositionalCounter;
