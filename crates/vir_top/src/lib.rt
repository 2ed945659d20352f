//! The program over what is handed in: the words of a command, a shelf of files, two sinks, and a bench of counters.
//!
//! The contract of the one public call, [`virage`], is one record (`specs/Calls.antt`): there are contents of
//! the files that the words ask for, as far as the shelf tells them, whose course is performed; its steps are
//! made on the bench and the shelf, and the answer that it leads to is delivered. What is printed and each
//! status follow from that. It stands on `vir_words` for the words, on `vir_files` for readers of files, on
//! `vir_counting`, `vir_claims` and `vir_batch` for the work of the commands, and on `vir_course` for what
//! these say.
#![tactic(auto)]

mod answering;
mod delivery;
mod laws;
mod status;
mod top;
mod works;

pub use delivery::deliver;
pub use laws::{
    accepted_files_are_counted, batches_are_counted, cases_are_judged, certificates_are_judged,
    missing_files_are_told, refused_profiles_are_told, refused_rules_are_told,
    unserved_modules_are_told,
};
pub use status::{OUT_OF_MEMORY, USAGE_FAULT};
pub use top::virage;
