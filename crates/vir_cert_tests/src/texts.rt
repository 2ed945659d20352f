// Texts of certificates, by their parts.
use std::alloc::{AllocError, Global};
use vir_cert::read_cert;
use vir_read::{TextError, TextFault, TextKind};

pub(crate) const TERM: &str = "seq(max(copeland),elect)";

pub(crate) const DERIVATION: &str = "mono-seq-ea(ne-leaf,dmono-leaf,ea-leaf)";

// The four lines of a certificate.
pub(crate) fn lay_out(
    alloc: Global,
    version: &str,
    term: &str,
    prop: &str,
    derivation: &str,
) -> Result<String, AllocError> {
    format!(in alloc;
        "virage-certificate {version}\nterm {term}\nproperty {prop}\nderivation {derivation}\n"
    )
}

// A word with parentheses, so many times round what is inside.
pub(crate) fn nest(
    alloc: Global,
    word: &str,
    times: usize,
    inside: &str,
) -> Result<String, AllocError> {
    let mut text = String::new(alloc);
    for _ in 0..times {
        text.push_str(word)?;
        text.push_str("(")?;
    }
    text.push_str(inside)?;
    for _ in 0..times {
        text.push_str(")")?;
    }
    Ok(text)
}

// Whether a text has this first fault.
pub(crate) fn has_fault(alloc: Global, text: &[u8], kind: TextKind, at: usize) -> bool {
    match read_cert(alloc, text) {
        Ok(_) => false,
        Err(e) => e == TextError::Fault(TextFault { kind, at }),
    }
}

// Whether a text is a certificate.
pub(crate) fn is_read(alloc: Global, text: &[u8]) -> bool {
    read_cert(alloc, text).is_ok()
}
