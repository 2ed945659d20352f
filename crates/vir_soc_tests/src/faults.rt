// Texts, and the fault that each is known to have.
use crate::answers::expect_fault;
use crate::samples::SMALL;
use std::alloc::AllocError;
use vir_soc::SocKind;

// A text, and the kind and the line of its fault; no kind where the text is a file.
const CASES: &[(&str, &str, u64)] = &[
    // Files: no votes, no line feed at the end, metadata after votes, a count of 0, loose spacing.
    ("# NUMBER ALTERNATIVES: 3", "", 0),
    ("# NUMBER ALTERNATIVES: 1\n5:1", "", 0),
    (
        "# NUMBER ALTERNATIVES: 1\n5:1\n# NUMBER VOTERS: 5\n# NUMBER UNIQUE ORDERS: 1",
        "",
        0,
    ),
    ("# NUMBER ALTERNATIVES: 2\n0: 1,2\n0: 1,2\n", "", 0),
    (
        " \t#NUMBER ALTERNATIVES :\t3 \r\n\r\n \t 3 :  1 ,\t2, 3 \r\n",
        "",
        0,
    ),
    ("\u{feff}# NUMBER ALTERNATIVES: 1\n1:1\n", "", 0),
    (
        "# DATA TYPE: SoC\n# other\n# a: b: c\n# NUMBER ALTERNATIVES: 1\n# NUMBER ALTERNATIVES: 1\n",
        "",
        0,
    ),
    // A literal of any length is a number.
    (
        "# NUMBER ALTERNATIVES: 000000000000000000000000000000000000000000000000000000000000004\n1: 4,3,2,1",
        "",
        0,
    ),
    (
        "# NUMBER ALTERNATIVES: 1
000000000000000000000000000000000000000000000000000000000000004: 01
# NUMBER VOTERS: 4",
        "",
        0,
    ),
    (
        "# NUMBER ALTERNATIVES: 2\n18446744073709551615: 1,2\n",
        "",
        0,
    ),
    ("# NUMBER ALTERNATIVES: 65537", "TooManyAlternatives", 1),
    (
        "# NUMBER ALTERNATIVES: 340282366920938463463374607431768211457",
        "TooManyAlternatives",
        1,
    ),
    (
        "# NUMBER ALTERNATIVES: 1\n1: 340282366920938463463374607431768211457",
        "OutOfRange",
        2,
    ),
    (
        "# NUMBER ALTERNATIVES: 1\n340282366920938463463374607431768211457: 1",
        "TooManyVoters",
        2,
    ),
    ("# NUMBER VOTERS: 18446744073709551616\n", "BadNumber", 1),
    (
        "# NUMBER UNIQUE ORDERS: 340282366920938463463374607431768211457\n",
        "BadNumber",
        1,
    ),
    // Numbers that metadata tells.
    ("# NUMBER ALTERNATIVES: 0", "BadNumber", 1),
    ("# NUMBER ALTERNATIVES: 3x\n", "BadNumber", 1),
    ("# NUMBER VOTERS: -1\n", "BadNumber", 1),
    ("# NUMBER ALTERNATIVES: 1024", "", 0),
    ("# NUMBER ALTERNATIVES: 1025", "TooManyAlternatives", 1),
    (
        "# NUMBER ALTERNATIVES: 3\n# NUMBER ALTERNATIVES: 4\n",
        "CountDiffers",
        2,
    ),
    (
        "# NUMBER VOTERS: 3\n\n# NUMBER VOTERS: 4\n",
        "CountDiffers",
        3,
    ),
    (
        "# NUMBER VOTERS: 9\n# NUMBER ALTERNATIVES: 1\n# NUMBER VOTERS: 09\n4:1",
        "VotersDiffer",
        1,
    ),
    (
        "# NUMBER UNIQUE ORDERS: 9\n# NUMBER VOTERS: 9\n# NUMBER ALTERNATIVES: 1\n",
        "VotersDiffer",
        2,
    ),
    (
        "# NUMBER ALTERNATIVES: 1\n# NUMBER UNIQUE ORDERS: 2\n4:1\n",
        "OrdersDiffer",
        2,
    ),
    ("# DATA TYPE: toc\n", "WrongType", 1),
    ("", "NoAlternativeCount", 1),
    ("\n \t\r\n\n", "NoAlternativeCount", 4),
    ("\n1: 1\n", "NoAlternativeCount", 2),
    // Lines of votes.
    ("# NUMBER ALTERNATIVES: 256\n1: 256,1\n", "Short", 2),
    ("# NUMBER ALTERNATIVES: 256\n1: 256,256\n", "Repeated", 2),
    ("# NUMBER ALTERNATIVES: 255\n1: 256\n", "OutOfRange", 2),
    ("# NUMBER ALTERNATIVES: 2\n1: 1,2,1\n", "Repeated", 2),
    ("# NUMBER ALTERNATIVES: 2\n1: 1,2\r\r\n1: 2,1 \n", "", 0),
    ("# NUMBER ALTERNATIVES: 2\n1: 1,2\rx\n", "BadEntry", 2),
    ("# NUMBER ALTERNATIVES: 2\n1: 1,2x\n", "BadEntry", 2),
    ("# NUMBER ALTERNATIVES: 3\n3: 1,2\n", "Short", 2),
    ("# NUMBER ALTERNATIVES: 3\n3: 1,{2,3}\n", "Tie", 2),
    ("# NUMBER ALTERNATIVES: 3\n3: 1,2,2\n", "Repeated", 2),
    ("# NUMBER ALTERNATIVES: 3\n3: 1,2,4\n", "OutOfRange", 2),
    ("# NUMBER ALTERNATIVES: 3\n3: 0,2,1\n", "OutOfRange", 2),
    ("# NUMBER ALTERNATIVES: 3\n3: 1,2,3,\n", "BadEntry", 2),
    ("# NUMBER ALTERNATIVES: 3\n3: 1,2,3,1\n", "Repeated", 2),
    ("# NUMBER ALTERNATIVES: 3\n3: 1,1,x\n", "Repeated", 2),
    ("# NUMBER ALTERNATIVES: 3\n3: x,4,4}\n", "Tie", 2),
    ("# NUMBER ALTERNATIVES: 3\n3 1,2,3\n", "NoColon", 2),
    ("# NUMBER ALTERNATIVES: 3\nx: 1,2,3\n", "BadCount", 2),
    ("# NUMBER ALTERNATIVES: 3\n: 1,{2,3}\n", "BadCount", 2),
    (
        "# NUMBER ALTERNATIVES: 2\n18446744073709551615: 1,2\n1: 2,1\n",
        "TooManyVoters",
        3,
    ),
    (
        "# NUMBER ALTERNATIVES: 2\n18446744073709551615: 1,2\n1: 2\n",
        "Short",
        3,
    ),
    (
        "# NUMBER ALTERNATIVES: 2\n18446744073709551616: 1\n",
        "Short",
        2,
    ),
    (
        "# NUMBER ALTERNATIVES: 2\n1: 1,2\n1: 2,3\n1: 2\n",
        "OutOfRange",
        3,
    ),
    // Bytes of no text, and a mark that is not at the front.
    ("\0", "NoAlternativeCount", 1),
    ("# NUMBER ALTERNATIVES: 1\0\n", "BadNumber", 1),
    ("# NUMBER ALTERNATIVES: 1\n\01: 1\n", "BadCount", 2),
    ("# NUMBER ALTERNATIVES: 1\n\u{feff}1: 1\n", "BadCount", 2),
];

#[test]
fn texts_have_their_faults(rt: HostRuntime) {
    for (text, kind, line) in CASES {
        expect_fault(&rt, rt.alloc(), text.as_bytes(), kind, *line);
    }
}

const FOUR: &str = "4: 1,2,3\n";

// What stands before and behind the small file, and the kind of the fault at line 1.
const AROUND: &[(&str, &str, &str)] = &[
    ("# NUMBER VOTERS: 10\n", "", "VotersDiffer"),
    ("# NUMBER VOTERS: 9\n", "", ""),
    ("", FOUR, ""),
    ("# NUMBER VOTERS: 9\n", FOUR, "VotersDiffer"),
];

#[test]
fn voters_of_a_small_file(rt: HostRuntime) -> Result<(), AllocError> {
    for (before, behind, kind) in AROUND {
        let text = format!(in rt.alloc(); "{before}{SMALL}{behind}")?;
        expect_fault(&rt, rt.alloc(), text.as_bytes(), kind, 1);
    }
    Ok(())
}

// The kinds by their numbers, which begin at 1.
const KINDS: &[(SocKind, u8)] = &[
    (SocKind::BadNumber, 1),
    (SocKind::OutOfRange, 8),
    (SocKind::Repeated, 9),
    (SocKind::FileTooLong, 16),
    (SocKind::CountDiffers, 17),
];

#[test]
fn kinds_have_numbers(rt: HostRuntime) {
    for (kind, number) in KINDS {
        assert!(rt; kind.number() == *number);
    }
}
