// The laws are functions that can be called.
#[test]
fn laws_on_the_table_can_be_called() {
    vir_rules::laws::each_row_is_a_rule();
    vir_rules::laws::names_of_rules_differ();
    vir_rules::laws::first_derivations_are_valid();
    vir_rules::laws::first_derivation_is_unique();
    vir_rules::laws::bad_nodes_tell();
    vir_rules::laws::reasons_are_unique();
    vir_rules::laws::valid_trees_are_of_rules();
}

#[test]
fn laws_on_signatures_can_be_called() {
    vir_derive::laws::numbers_close();
    vir_derive::laws::equal_signatures_say_the_same();
}

#[test]
fn the_law_on_lists_can_be_called() {
    vir_synth::laws::terms_are_composed();
}
