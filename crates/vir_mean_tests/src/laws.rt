// The laws are functions that can be called.
use vir_mean::{
    alternatives_are_numbers_from_1_on, changed_score_raises_the_lifted,
    condorcet_winner_is_above_the_borda_average, condorcet_winner_leads,
    lifted_leader_by_condorcet_score, lifted_score_never_falls, line_may_be_split,
    loop_goes_by_turns, loop_may_stop_below_its_number, loop_of_k_alternatives_stops,
    meanings_are_splits, moving_back_may_lower_a_score, no_other_score_rises,
    nothing_is_split_into_nothing, passing_is_not_neutral, renamed_elections_are_elections,
    restricted_lift, restriction_without_the_lifted, unchanged_profile_is_a_lift,
    until_of_few_alternatives_stops,
};

#[test]
fn laws_can_be_called() {
    meanings_are_splits();
    nothing_is_split_into_nothing();
    loop_goes_by_turns();
    loop_of_k_alternatives_stops();
    until_of_few_alternatives_stops();
    loop_may_stop_below_its_number();
    line_may_be_split();
    alternatives_are_numbers_from_1_on();
    renamed_elections_are_elections();
    passing_is_not_neutral();
    condorcet_winner_is_above_the_borda_average();
    condorcet_winner_leads();
}

#[test]
fn laws_on_lifts_can_be_called() {
    lifted_score_never_falls();
    moving_back_may_lower_a_score();
    no_other_score_rises();
    changed_score_raises_the_lifted();
    lifted_leader_by_condorcet_score();
    restricted_lift();
    restriction_without_the_lifted();
    unchanged_profile_is_a_lift();
}
