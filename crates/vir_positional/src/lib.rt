//! Positional scores: what each alternative gets by a weight that each place of a ballot has.
//!
//! The weights are given by a form: those of plurality, those of Borda, or a list of up to 1,024 numbers
//! that never rise. The contract of this layer: a `Weighing` gives exactly the weights of its form;
//! `positional_score` gives the sum of the weights that a member gets on the election's ballots, restricted
//! to a set, and `positional_split` the split of an eliminator that goes by this score (`specs/`), which is
//! a split of the set; and on every set and profile such an eliminator elects nobody, keeps some, and goes
//! on deferring whom it defers when that alternative is lifted (`laws.rt`). The weights of plurality and of
//! Borda give the scores of these names, so `vir_score` finds Borda's scores here where an election has no
//! table. Nothing here takes memory but what a list of weights holds. It stands on `vir_tables`, over
//! whose lines it goes once, and on `vir_mean`, whose definitions it shares.
#![tactic(auto)]

mod laws;
mod scores;
mod sums;
mod weighing;
mod weight_form;
mod weight_rule;
mod weights;

pub use laws::{
    borda_by_weights, lifted_stays_deferred, plurality_by_weights,
    positional_eliminators_elect_nobody, positional_eliminators_keep_some,
};
pub use scores::{fill as fill_positional, positional_score, positional_split};
pub use vir_mean::Elimination;
pub use weighing::Weighing;
pub use weight_form::{WeightForm, weight_of};
pub use weight_rule::WeightRule;
pub use weights::Weights;
