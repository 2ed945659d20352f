// Files that are cut off, and pieces that are cut anywhere.
use crate::answers::{SIZES, answer, expect_fault};
use crate::samples::{FULL, SMALL};
use std::alloc::Global;
use vir_soc::{SocError, SocFault, SocKind, SocReader};

// The kinds that the small file has after so many bytes of a line of votes; none where it is a file.
const IN_VOTES: &[&str] = &[
    "", "NoColon", "BadEntry", "BadEntry", "Short", "BadEntry", "Short", "BadEntry", "",
];

// The kind and the line of the fault that the first n bytes of the small file have.
fn fault_after(n: usize) -> (&'static str, u64) {
    if n < 22 {
        ("NoAlternativeCount", 1)
    } else if n < 24 {
        ("BadNumber", 1)
    } else if n < 25 {
        ("", 0)
    } else {
        (IN_VOTES[(n - 25) % 9], (n - 25) as u64 / 9 + 2)
    }
}

#[test]
fn a_small_file_cut_off_after_each_byte(rt: HostRuntime) {
    let small = SMALL.as_bytes();
    assert!(rt; small.len() == 52);
    for n in 0..small.len() + 1 {
        let (kind, line) = fault_after(n);
        expect_fault(&rt, rt.alloc(), &small[..n], kind, line);
    }
}

// Whether pieces of this size have the same fault as the whole, if any.
fn is_same_in_pieces(alloc: Global, bytes: &[u8], size: usize) -> bool {
    answer(alloc, bytes, size).err() == answer(alloc, bytes, 70_000).err()
}

#[test]
fn pieces_change_no_fault(rt: HostRuntime) {
    for n in 0..FULL.len() + 1 {
        for size in SIZES {
            assert!(rt;
                is_same_in_pieces(rt.alloc(), &FULL[..n], *size),
                "{n} bytes by {size}"
            );
        }
    }
}

#[test]
fn a_fault_is_shown_once_its_line_is_ended(rt: HostRuntime) {
    let mut reader = SocReader::new(rt.alloc());
    let fault = SocError::Fault(SocFault {
        line: 2,
        kind: SocKind::Short,
    });
    assert!(rt; reader.feed(b"# NUMBER ALTERNATIVES: 3\n3: 1,2") == Ok(()));
    assert!(rt; reader.feed(b"") == Ok(()));
    assert!(rt; reader.feed(b"\nx") == Err(fault));
    assert!(rt; reader.feed(b"\n# NUMBER ALTERNATIVES: 4\n") == Err(fault));
    assert!(rt; reader.finish().err() == Some(fault));
}
