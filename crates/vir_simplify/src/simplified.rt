// What simplification gives.
use crate::trace::Trace;
use vir_term::Term;

/// A term, and the steps by which it came about.
#[derive(Debug, Drop)]
pub struct Simplified {
    pub term: Term,
    pub trace: Trace,
}
