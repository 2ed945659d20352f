// Positional scores: words, and the text on the profile of nine voters.
use crate::calls::{DIVIDED, ELECT, SHORT, UNREAD, USAGE, expect_call, full_shelf};
use std::alloc::AllocError;

// Weights, the kind of elimination, the contents of "votes.soc", and the status, the output and the error line.
type Row = (
    &'static str,
    &'static str,
    &'static [u8],
    u8,
    &'static [u8],
    &'static [u8],
);

const THIRD_GOES: &[u8] = b"elected:\nrejected: 3\ndeferred: 1 2\n";

const SECOND_STAYS: &[u8] = b"elected:\nrejected: 1 3\ndeferred: 2\n";

const ALL_STAY: &[u8] = b"elected:\nrejected:\ndeferred: 1 2 3\n";

const ROWS: &[Row] = &[
    ("2,1,0", "min", DIVIDED, 0, THIRD_GOES, b""),
    ("3,1,0", "upto", DIVIDED, 0, SECOND_STAYS, b""),
    ("3,1,0", "below", DIVIDED, 0, THIRD_GOES, b""),
    ("1", "max", DIVIDED, 0, ALL_STAY, b""),
    (
        "1",
        "max",
        SHORT,
        4,
        b"",
        b"profile refused: Short at line 2\n",
    ),
    ("0,1", "max", DIVIDED, 2, b"", USAGE),
    ("01", "max", DIVIDED, 2, b"", USAGE),
    ("1,", "max", DIVIDED, 2, b"", USAGE),
    ("1000001", "max", DIVIDED, 2, b"", USAGE),
    ("1", "most", DIVIDED, 2, b"", USAGE),
];

#[test]
fn places_have_weights(rt: HostRuntime) -> Result<(), AllocError> {
    for (weights, kind, profile, status, text, line) in ROWS {
        let words = ["position", *weights, *kind, "votes.soc"];
        let mut shelf = full_shelf(rt.alloc(), ELECT, profile)?;
        expect_call(&rt, rt.alloc(), &words, &mut shelf, *status, text, line)?;
    }
    Ok(())
}

#[test]
fn a_missing_profile_isnt_read(rt: HostRuntime) -> Result<(), AllocError> {
    let mut shelf = full_shelf(rt.alloc(), ELECT, DIVIDED)?;
    let words = ["position", "1", "max", "other.soc"];
    expect_call(&rt, rt.alloc(), &words, &mut shelf, 5, b"", UNREAD)
}
