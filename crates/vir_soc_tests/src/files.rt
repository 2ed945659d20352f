// What files say, and how they are written.
use crate::answers::{SIZES, file_of};
use crate::samples::{FULL, SMALL};
use std::alloc::AllocError;
use std::process::Abort;
use vir_profile::SocFile;
use vir_soc::{
    fault_is_settled_with_its_line, fault_stays, metadata_is_true, names_are_the_last_given,
    no_line_before_has_a_fault, votes_are_lines, write_soc, written_files_read_back,
};

fn expect_name(rt: &impl Abort, file: &SocFile, number: u16, name: Option<&[u8]>) {
    assert!(rt; file.name(number) == name, "the name of {number}");
}

fn expect_counts(rt: &impl Abort, file: &SocFile, alternatives: u16, total: u64, lines: usize) {
    assert!(rt; file.profile().alternatives() == alternatives);
    assert!(rt; file.profile().total() == total);
    assert!(rt; file.profile().lines() == lines);
}

const NAMES: &[(u16, Option<&[u8]>)] = &[
    (1, Some(b"Ito, K.: list A")),
    (2, Some(b"Muller")),
    (3, Some(b"Ruiz")),
    (4, None),
];

#[test]
fn names_are_found_by_number(rt: HostRuntime) {
    for size in SIZES {
        let file = file_of(&rt, rt.alloc(), FULL, *size);
        for (number, name) in NAMES {
            expect_name(&rt, &file, *number, *name);
        }
        expect_counts(&rt, &file, 3, 9, 3);
        assert!(rt; file.names().len() == 3);
    }
}

// The last line of a key counts, an empty value takes a name away, and two blanks make another key.
const RENAMED: &[u8] = b"# NUMBER ALTERNATIVES: 2
# ALTERNATIVE NAME 2: b
# ALTERNATIVE NAME 1: a
# ALTERNATIVE NAME 3: c
# ALTERNATIVE NAME 2:
# ALTERNATIVE NAME 01:\ta b\x20
# ALTERNATIVE NAME  2: d
";

#[test]
fn the_last_line_of_a_name_counts(rt: HostRuntime) {
    let file = file_of(&rt, rt.alloc(), RENAMED, 7);
    expect_name(&rt, &file, 1, Some(b"a b"));
    expect_name(&rt, &file, 2, None);
    expect_name(&rt, &file, 3, None);
}

// A text, and how the file is written.
const WRITTEN: &[(&str, &str)] = &[
    (
        SMALL,
        "# DATA TYPE: soc
# NUMBER ALTERNATIVES: 3
# NUMBER VOTERS: 9
# NUMBER UNIQUE ORDERS: 3
4: 1,2,3
3: 2,3,1
2: 3,2,1
",
    ),
    // Two names, one of them with a colon and a comma, a count of 0, and numbers of two digits.
    (
        "# ALTERNATIVE NAME 11:\tOslo: a, b \n#NUMBER ALTERNATIVES:011
 0007:11 , 10,9,8,7,6,5,4,3,2,01
0:1,2,3,4,5,6,7,8,9,10,11
# ALTERNATIVE NAME 2: #2
# ALTERNATIVE NAME 12: x",
        "# DATA TYPE: soc
# NUMBER ALTERNATIVES: 11
# NUMBER VOTERS: 7
# NUMBER UNIQUE ORDERS: 2
# ALTERNATIVE NAME 2: #2
# ALTERNATIVE NAME 11: Oslo: a, b
7: 11,10,9,8,7,6,5,4,3,2,1
0: 1,2,3,4,5,6,7,8,9,10,11
",
    ),
    (
        "# NUMBER ALTERNATIVES: 2",
        "# DATA TYPE: soc
# NUMBER ALTERNATIVES: 2
# NUMBER VOTERS: 0
# NUMBER UNIQUE ORDERS: 0
",
    ),
];

#[test]
fn files_are_written(rt: HostRuntime) -> Result<(), AllocError> {
    for (text, written) in WRITTEN {
        let file = file_of(&rt, rt.alloc(), text.as_bytes(), 7);
        let bytes = write_soc(rt.alloc(), &file)?;
        assert!(rt; bytes.as_slice() == written.as_bytes(), "{bytes:?}");
    }
    Ok(())
}

#[test]
fn laws_can_be_called() {
    fault_stays();
    votes_are_lines();
    names_are_the_last_given();
    metadata_is_true();
    no_line_before_has_a_fault();
    fault_is_settled_with_its_line();
    written_files_read_back();
}
