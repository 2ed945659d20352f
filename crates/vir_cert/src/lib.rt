//! Certificates: a term, a property, and a derivation, as one text.
//!
//! There are two versions, of which the first lacks the loop `until`, the property `neut` and the rules of these.
//! The definition is `specs/Certs.antt`, a function on whole texts with the version as a parameter of its parts. The
//! one contract of this layer: `read_cert` gives the certificate or the first fault, with its kind and its place,
//! exactly where that function does; `print_cert` gives the text of `specs/Texts.antt`; what is printed is read as
//! what it was printed from, and the second version takes nothing away from the first (`laws.rt`). Whether the
//! derivation is one of the property of the term is another matter. It stands on `vir_read` for tokens, trees and
//! terms, on `vir_rules`, and on `vir_report` for the texts of its parts.
#![tactic(auto)]

mod certificate;
mod derivation_reader;
mod label;
mod laws;
mod property;
mod reader;
mod until;
mod version;
mod writer;

pub use certificate::Certificate;
pub use laws::{
    accepted_certificates_are_within_limits, first_certificates_are_read,
    printed_certificates_are_read, valid_certificates_are_within_limits,
};
pub use reader::{CERTIFICATE_LIMIT, read_cert};
pub use writer::print_cert;
