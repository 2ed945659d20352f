//! The words of the command line, read as commands.
//!
//! The contract of this layer is that of `read_words`: it gives the command that the words are, and none exactly
//! where they are no command, as one function on lists of bytes says (`command_of` in `specs/Command.antt`). What a
//! command holds is within the limits of what it asks for. A property, a module or a weight is a word just where it
//! is written as it is printed; that each one that is printed is such a word is a law (`laws.rt`). It stands on
//! `vir_rules` and `vir_book`, which read properties and modules, on `vir_positional` and `vir_mean` for weights
//! and eliminators, on `vir_refute` for which properties are on lifts, and on `itoa` for the digits of numbers.
#![tactic(auto)]

mod command;
mod default_leaves;
mod laws;
mod reading;
mod refutation;
mod word_leaf;
mod word_lists;
mod word_number;
mod word_prop;

pub use command::{Command, ProfileWork, RuleProfileWork, RuleWork};
pub use laws::{
    commands_are_in_range, default_modules_are_27, printed_modules_are_words,
    printed_properties_are_words, words_are_printed_modules, words_are_printed_properties,
};
pub use reading::read_words;
