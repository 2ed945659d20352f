// What a reader answers to bytes, in pieces of several sizes.
use std::alloc::Global;
use std::process::Abort;
use vir_profile::SocFile;
use vir_soc::{SocError, SocReader};

/// By one byte, by seven and whole.
pub const SIZES: &[usize] = &[1, 7, 70_000];

/// What a reader answers to these bytes in pieces of this size.
pub fn answer(alloc: Global, bytes: &[u8], size: usize) -> Result<SocFile, SocError> {
    let mut reader = SocReader::new(alloc);
    for piece in bytes.chunks(size.max(1)) {
        reader.feed(piece)?;
    }
    reader.finish()
}

/// The file that these bytes are, in pieces of this size.
pub fn file_of(rt: &impl Abort, alloc: Global, bytes: &[u8], size: usize) -> SocFile {
    match answer(alloc, bytes, size) {
        Ok(file) => file,
        Err(error) => panic!(rt; "{error} in {bytes:?}"),
    }
}

// Whether the answer is a fault of this kind at this line; no kind at all says that it is a file.
fn is_answer(answer: &Result<SocFile, SocError>, kind: &str, line: u64) -> bool {
    match answer {
        Ok(_) => kind.is_empty(),
        Err(SocError::Fault(fault)) => fault.kind.name() == kind && fault.line == line,
        Err(SocError::Memory) => false,
    }
}

/// Reads the bytes in pieces of each size, and wants this fault, or a file where no kind is named.
pub fn expect_fault(rt: &impl Abort, alloc: Global, bytes: &[u8], kind: &str, line: u64) {
    for size in SIZES {
        let answer = answer(alloc, bytes, *size);
        assert!(rt; is_answer(&answer, kind, line), "by {size} of {bytes:?}");
    }
}
