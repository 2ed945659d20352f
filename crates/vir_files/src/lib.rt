//! Files from a shelf: read, judged, and handed on as what they say.
//!
//! Each call reads the files of one form of words, one after another as long as none is refused, and says
//! what the shelf's contents come to (`specs/Readings.antt`): the values that the files hold, or the first
//! reason to stop. Whoever works on these values sees no shelf. [`text`] is for files of a kind that a layer
//! above defines. It stands on `vir_outside` for the shelf, on `vir_book`, `vir_cert` and `vir_soc` for the
//! formats, and on `vir_course`.
#![tactic(auto)]

mod certificate_file;
mod file;
mod profile_file;
mod rule_file;
mod text_file;
mod three_files;
mod two_files;

pub use file::{certificate, profile, rule};
pub use text_file::text_file as text;
pub use three_files::{RuleAndTwoProfiles, rule_and_two_profiles};
pub use two_files::{RuleAndProfile, rule_and_profile};
