// The laws of the language can be called.
use vir_book::{
    no_more_definitions_than_tokens, printed_books_are_read, printed_rules_are_read,
    rule_files_are_so_long, rules_are_within_limits,
};
use vir_read::{
    limits_are_these, pieces_are_read, printed_definitions_are_read, printed_terms_are_read,
    printed_terms_are_short, spelled_terms_are_typed, terms_are_pieces,
};

#[test]
fn laws_can_be_called() {
    terms_are_pieces();
    pieces_are_read();
    spelled_terms_are_typed();
    printed_terms_are_read();
    printed_definitions_are_read();
    printed_terms_are_short();
    limits_are_these();
}

#[test]
fn laws_of_rule_files_can_be_called() {
    printed_rules_are_read();
    printed_books_are_read();
    rules_are_within_limits();
    no_more_definitions_than_tokens();
    rule_files_are_so_long();
}
