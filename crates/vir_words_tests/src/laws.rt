// The laws are proved where they stand. Here each is called once.
use vir_words::{
    commands_are_in_range, default_modules_are_27, printed_modules_are_words,
    printed_properties_are_words, words_are_printed_modules, words_are_printed_properties,
};

#[test]
fn laws_can_be_called() {
    printed_properties_are_words();
    words_are_printed_properties();
    printed_modules_are_words();
    words_are_printed_modules();
    commands_are_in_range();
    default_modules_are_27();
}
