//! The format of PrefLib's files of strict complete orders, read in pieces and written.
//!
//! `specs/Soc.antt` states the format as one function on all bytes of a file: what the file says, or
//! its first fault with its line. The one contract: however the bytes are cut into pieces, a
//! [`SocReader`] gives what that function gives, and shows a fault as soon as the bytes so far settle
//! it. What [`write_soc`] writes of a file reads back as that file where the text is within the size
//! limit. Lines of votes in the shape that nearly all files give them are read in one pass over the
//! bytes of a piece, and all others step by step. The layer stands on `vir_profile`, whose `SocFile` is
//! what a file says, and on `vir_altset`; `memchr` finds its line feeds, `itoa` writes its numbers, and
//! `thiserror` derives its errors. Its tests are a crate of their own, `vir_soc_tests`.
#![tactic(auto)]

mod bytes;
mod draft;
mod fault;
mod key;
mod kind;
mod laws;
mod line;
mod line_reader;
mod metadata;
mod names;
mod soc_reader;
mod stated;
mod stop;
mod usual;
mod votes;
mod write;

pub use fault::{SocError, SocFault};
pub use kind::SocKind;
pub use laws::{
    fault_is_settled_with_its_line, fault_stays, metadata_is_true, names_are_the_last_given,
    no_line_before_has_a_fault, votes_are_lines,
};
pub use soc_reader::{PROFILE_SIZE_LIMIT, SocReader};
pub use write::{write_soc, written_files_read_back};
