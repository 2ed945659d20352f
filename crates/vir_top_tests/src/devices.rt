// Each call of a device failing in turn, cut files, and how much a read asks for.
ghost use Rattle.std.specs.Prelude.{◌≤◌};

use crate::calls::{
    COUNT, DIVIDED, ELECT, FIRST_WINS, PLURALITY, SHORT, UNREAD, expect_call, full_shelf, status_of,
};
use std::alloc::{AllocError, Global};
use std::process::Abort;
use vir_outside::{Failed, MemorySink, Shelf};

const UNKNOWN: &[u8] = b"r = seq(foo,elect);";

const UNKNOWN_NAMED: &[u8] = b"text refused: UnknownName at byte 8\n";

// The call at which the profile is selected: the rule file was selected, read, and read to its end.
const PROFILE_SELECTED: u64 = 4;

#[test]
fn each_failing_call_of_the_shelf_gives_a_read_fault(rt: HostRuntime) -> Result<(), AllocError> {
    let mut undisturbed = full_shelf(rt.alloc(), PLURALITY, DIVIDED)?;
    expect_call(&rt, rt.alloc(), COUNT, &mut undisturbed, 0, FIRST_WINS, b"")?;
    // Each file is selected, read, and read to its end.
    assert!(rt; undisturbed.calls() == 6);
    for call in 1..7 {
        let mut shelf = full_shelf(rt.alloc(), PLURALITY, DIVIDED)?;
        shelf.fail_at(call)?;
        expect_call(&rt, rt.alloc(), COUNT, &mut shelf, 5, b"", UNREAD)?;
    }
    let mut shelf = full_shelf(rt.alloc(), PLURALITY, DIVIDED)?;
    shelf.fail_at(7)?;
    expect_call(&rt, rt.alloc(), COUNT, &mut shelf, 0, FIRST_WINS, b"")
}

// A profile that would be refused isn't read where it can't be selected, and a rule file is refused before.
#[test]
fn a_fault_at_the_selecting_of_the_profile_comes_after_the_rule(
    rt: HostRuntime,
) -> Result<(), AllocError> {
    let mut shelf = full_shelf(rt.alloc(), ELECT, SHORT)?;
    shelf.fail_at(PROFILE_SELECTED)?;
    expect_call(&rt, rt.alloc(), COUNT, &mut shelf, 5, b"", UNREAD)?;
    let mut shelf = full_shelf(rt.alloc(), UNKNOWN, DIVIDED)?;
    shelf.fail_at(PROFILE_SELECTED)?;
    expect_call(&rt, rt.alloc(), COUNT, &mut shelf, 3, b"", UNKNOWN_NAMED)
}

// A call of `count` writes to an output that takes so many bytes at a time and fails at one write. A
// fault of the other sink changes nothing.
fn expect_written(
    rt: &impl Abort,
    alloc: Global,
    most: usize,
    failing: u64,
    status: u8,
    text: &[u8],
    line: &[u8],
) -> Result<(), AllocError>
    requires { 1 ≤ most }
{
    let mut shelf = full_shelf(alloc, PLURALITY, DIVIDED)?;
    let mut out = MemorySink::new(alloc, most);
    out.fail_at(failing)?;
    let mut err = MemorySink::new(alloc, 6);
    err.fail_at(2)?;
    let answered = status_of(alloc, COUNT, &mut shelf, &mut out, &mut err)?;
    assert!(rt; answered == status, "at write {failing}");
    assert!(rt; out.bytes() == text, "at write {failing}");
    assert!(rt; err.bytes() == line, "at write {failing}");
    Ok(())
}

#[test]
fn each_failing_write_gives_a_write_fault(rt: HostRuntime) -> Result<(), AllocError> {
    // One byte a write; and a write that takes four, of which the second fails.
    for call in 1..36u8 {
        let written = usize::from(call - 1).min(FIRST_WINS.len());
        let text = &FIRST_WINS[..written];
        expect_written(&rt, rt.alloc(), 1, u64::from(call), 6, text, b"write ")?;
    }
    expect_written(&rt, rt.alloc(), 1, 36, 0, FIRST_WINS, b"")?;
    expect_written(&rt, rt.alloc(), 4, 2, 6, b"elec", b"write ")
}

// The line of a refused rule file, by one byte a write, is cut where a write fails.
#[test]
fn a_line_is_written_up_to_a_failing_byte(rt: HostRuntime) -> Result<(), AllocError> {
    let mut shelf = full_shelf(rt.alloc(), UNKNOWN, DIVIDED)?;
    let mut out = MemorySink::new(rt.alloc(), 8);
    let mut err = MemorySink::new(rt.alloc(), 1);
    err.fail_at(5)?;
    let status = status_of(rt.alloc(), COUNT, &mut shelf, &mut out, &mut err)?;
    assert!(rt; status == 3);
    assert!(rt; out.bytes().is_empty());
    assert!(rt; err.bytes() == b"text".as_slice());
    Ok(())
}

// The line of a refused profile is cut where its sink fails at one of its pieces.
#[test]
fn a_line_is_written_up_to_a_failing_piece(rt: HostRuntime) -> Result<(), AllocError> {
    const CUTS: &[&[u8]] = &[
        b"",
        b"profile refused: ",
        b"profile refused: Short",
        b"profile refused: Short at line ",
        b"profile refused: Short at line 2",
        b"profile refused: Short at line 2\n",
    ];
    let mut failing = 1;
    for line in CUTS {
        let mut shelf = full_shelf(rt.alloc(), ELECT, SHORT)?;
        let mut out = MemorySink::new(rt.alloc(), 8);
        let mut err = MemorySink::new(rt.alloc(), 100);
        err.fail_at(failing)?;
        failing = failing.saturating_add(1);
        let status = status_of(rt.alloc(), COUNT, &mut shelf, &mut out, &mut err)?;
        assert!(rt; status == 4);
        assert!(rt; err.bytes() == *line);
    }
    Ok(())
}

// After how many bytes the profile may be cut off.
const ACCEPTED_CUTS: &[usize] = &[24, 25, 33, 34, 42, 43, 51, 52];

#[test]
fn a_profile_that_is_cut_off_is_mostly_refused(rt: HostRuntime) -> Result<(), AllocError> {
    for length in 0..=DIVIDED.len() {
        let mut shelf = full_shelf(rt.alloc(), ELECT, &DIVIDED[..length])?;
        let mut out = MemorySink::new(rt.alloc(), 100);
        let mut err = MemorySink::new(rt.alloc(), 100);
        let status = status_of(rt.alloc(), COUNT, &mut shelf, &mut out, &mut err)?;
        let expected = if ACCEPTED_CUTS.contains(&length) {
            0
        } else {
            4
        };
        assert!(rt; status == expected, "cut after {length} bytes");
    }
    Ok(())
}

// A shelf that notes the largest buffer that a read of it is given.
#[derive(Drop)]
struct Noting<S: Shelf> {
    shelf: S,
    largest: usize,
}

impl<S: Shelf> Shelf for Noting<S> {
    ghost seen = { λ noting. S.seen noting.shelf };

    fn select(&mut self, name: &str) -> Result<(), Failed> {
        self.shelf.select(name)
    }

    fn read(&mut self, buf: &mut [u8]) -> Result<usize, Failed> {
        self.largest = self.largest.max(buf.len());
        self.shelf.read(buf)
    }
}

// The votes behind a comment that is longer than a piece.
fn long_profile(alloc: Global) -> Result<Vec<u8>, AllocError> {
    let mut profile = vec![in alloc; b'#'; 70_000]?;
    profile.push(b'\n')?;
    profile.extend_from_slice(DIVIDED)?;
    Ok(profile)
}

#[test]
fn a_profile_is_read_in_pieces(rt: HostRuntime) -> Result<(), AllocError> {
    let profile = long_profile(rt.alloc())?;
    let mut shelf = full_shelf(rt.alloc(), PLURALITY, &profile)?;
    expect_call(&rt, rt.alloc(), COUNT, &mut shelf, 0, FIRST_WINS, b"")?;
    // Two files are selected; the rule is read in one piece and the profile in nine, each to its end.
    assert!(rt; shelf.calls() == 14);
    Ok(())
}

#[test]
fn no_read_is_given_more_than_a_piece(rt: HostRuntime) -> Result<(), AllocError> {
    let profile = long_profile(rt.alloc())?;
    let mut shelf = Noting {
        shelf: full_shelf(rt.alloc(), PLURALITY, &profile)?,
        largest: 0,
    };
    let mut out = MemorySink::new(rt.alloc(), 8);
    let mut err = MemorySink::new(rt.alloc(), 8);
    let status = status_of(rt.alloc(), COUNT, &mut shelf, &mut out, &mut err)?;
    assert!(rt; status == 0);
    assert!(rt; out.bytes() == FIRST_WINS);
    assert!(rt; shelf.largest == 8_192);
    Ok(())
}
