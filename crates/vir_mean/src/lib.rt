//! Meaning: which alternatives a voting rule elects, rejects and defers, on any profile.
//!
//! The definitions are in `specs/`: scores (`Scores.antt`), eliminators and fixed orders
//! (`Eliminators.antt`, `FixedOrders.antt`), each module as a named line (`Modules.antt`), compositions
//! as functions of the meanings of their parts (`Compositions.antt`), and the meaning of a term by
//! recursion (`Meaning.antt`). None of them limits the profile. The contract of this layer:
//! `plain_result` gives that meaning on a part of a profile's alternatives, by restricting the ballots
//! literally; `eliminate`, `elect_plurality_winners` and `first_members` give what the modules of their
//! names do, over whatever tallies the ballots (`Tally`); and for every term, set and profile the
//! meaning splits the set, so that on no alternatives it is three empty sets, a loop goes turn by turn,
//! and a line of the profile may be split (`laws.rt`). What properties say of a meaning is defined here
//! too (`Properties.antt`, with `Lifts.antt`, `Neutrality.antt` and `Disjointness.antt`), and what they
//! rest on is proved: a lift, which moves one alternative towards the front of ballots and changes
//! nothing else, never lowers a score of that alternative nor raises one of another (`lift_laws.rt`); a
//! Condorcet winner's scores are above those of the others, or above the average (`winner_laws.rt`); and
//! an election whose alternatives get other names is an election still (`laws.rt`). It stands on
//! `vir_profile` and `vir_term`.
#![tactic(auto)]

mod bounds;
mod by_pairs;
mod compositions;
mod elimination;
mod ending;
mod fixed_orders;
mod laws;
mod lift_laws;
mod lines;
mod members;
mod modules;
mod plain;
mod restriction;
mod scores;
mod simple_splits;
mod tally;
mod winner_laws;

pub use compositions::{join_in_parallel, join_in_sequence, revise};
pub use elimination::{Elimination, elect_plurality_winners, eliminate, eliminate_by_scores};
pub use fixed_orders::first_members;
pub use laws::{
    alternatives_are_numbers_from_1_on, line_may_be_split, loop_goes_by_turns,
    loop_may_stop_below_its_number, loop_of_k_alternatives_stops, meanings_are_splits,
    new_names_may_be_other_numbers, nothing_is_split_into_nothing, passing_is_not_neutral,
    renamed_elections_are_elections, until_of_few_alternatives_stops,
};
pub use lift_laws::{
    changed_score_may_leave_the_lifted, changed_score_raises_the_lifted,
    lifted_leader_by_condorcet_score, lifted_score_never_falls, moving_back_may_lower_a_score,
    no_other_score_rises, restricted_lift, restriction_without_the_lifted,
    unchanged_profile_is_a_lift,
};
pub use lines::Lines;
pub use members::list_members;
pub use plain::plain_result;
pub use scores::{fill_scores, score_of};
pub use tally::{PLACES, Tally};
pub use winner_laws::{condorcet_winner_is_above_the_borda_average, condorcet_winner_leads};
