// The laws behind the checker can be called.
use vir_rules::Unfit;
use vir_sound::disjoint::disj_pass_drop;
use vir_sound::electing::ne_leaf;
use vir_sound::keeping::nb_defers;
use vir_sound::lifts::mono_seq_defers;
use vir_sound::sizes::defers_loop_elim;
use vir_sound::winners::cc_seq_dcc;
use vir_sound::{terms_within_limits_are_proper, valid_derivations_are_true, wrong_rules};

#[test]
fn laws_can_be_called() {
    ne_leaf();
    defers_loop_elim();
    nb_defers();
    mono_seq_defers();
    cc_seq_dcc();
    disj_pass_drop();
    wrong_rules::loops_to_two_keep_a_loser();
    wrong_rules::first_places_reject_winners();
    wrong_rules::leaders_by_minimax_may_change();
    wrong_rules::lifts_of_deferred_losers_matter();
    wrong_rules::loops_may_go_nowhere();
    wrong_rules::names_matter_to_fixed_orders();
    terms_within_limits_are_proper();
    valid_derivations_are_true();
}

#[test]
fn reasons_have_names(rt: HostRuntime) {
    assert!(rt; Unfit::RuleDoesNotFit.name() == "RuleDoesNotFit");
    assert!(rt; Unfit::WrongNumberOfPremises.name() == "WrongNumberOfPremises");
}
