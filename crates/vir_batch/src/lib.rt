//! One rule counted on many profiles.
//!
//! Which profiles these are is listed by a manifest, which `specs/Manifest.antt` defines as a function on its bytes:
//! [`read_manifest`] gives its names or its first fault exactly where that function does. [`batch`] reads each profile
//! from a shelf and counts it before it reads the next one, on one machine for one compiled rule; a profile that is
//! refused is no reason to stop. [`batch_of_files`] reads the rule and the manifest too. Courses are defined in
//! `specs/Batches.antt`, and the text in `specs/BatchTexts.antt`. It stands on `vir_read` for the faults of a text,
//! on `vir_files` for profiles from a shelf, on `vir_counting` for their elections, and on `vir_machine` and
//! `vir_compile` for runs.
#![tactic(auto)]

mod batches;
mod compiled_rule;
mod file_names;
mod files;
mod lines;
mod manifest;
mod manifest_file;
mod profile_or_fault;
#[cfg(test)]
mod tests;

pub use batches::batch;
pub use file_names::FileNames;
pub use files::batch_of_files;
pub use manifest::{MANIFEST_LIMIT, read_manifest};
