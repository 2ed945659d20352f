// Whole files and texts, at each shelf and sink.
use super::*;
use std::alloc::{AllocError, Global};
use std::fs;
use std::fs::File;
use std::process::Abort;
use std::test::Fail;

type Answer<'a> = Result<&'a [u8], ReadStop>;

// A shelf with two files of one name.
fn shelf_of_rules(alloc: Global) -> Result<MemoryShelf, AllocError> {
    let mut shelf = MemoryShelf::new(alloc);
    shelf.put("rule", b"elect")?;
    shelf.put("empty", b"")?;
    shelf.put("rule", b"defer all")?;
    Ok(shelf)
}

fn is_answer(read: &Result<Vec<u8>, ReadStop>, want: &Answer<'_>) -> bool {
    match read {
        Ok(bytes) => *want == Ok(bytes.as_slice()),
        Err(stop) => *want == Err(*stop),
    }
}

// Reads a file, and wants this answer and so many further calls.
fn expect_read(
    rt: &impl Abort,
    alloc: Global,
    shelf: &mut MemoryShelf,
    name: &str,
    limit: usize,
    want: &Answer<'_>,
    calls: u64,
) {
    let before = shelf.calls();
    let read = read_whole(alloc, shelf, name, limit);
    assert!(rt; is_answer(&read, want), "{name} at {limit}");
    assert!(rt;
        shelf.calls() == before.saturating_add(calls),
        "{name} at {limit}"
    );
}

// A name, a limit, the answer and the number of calls.
const READS: &[(&str, usize, Answer<'static>, u64)] = &[
    ("rule", 100, Ok(b"elect"), 3),
    ("rule", 5, Ok(b"elect"), 3),
    ("rule", 4, Err(ReadStop::TooLong), 2),
    ("rule", 0, Err(ReadStop::TooLong), 2),
    ("empty", 0, Ok(b""), 2),
    ("rules", 100, Err(ReadStop::Fault), 1),
];

#[test]
fn reads_the_first_file_of_the_name(rt: HostRuntime) -> Result<(), AllocError> {
    let mut shelf = shelf_of_rules(rt.alloc())?;
    for (name, limit, want, calls) in READS {
        expect_read(&rt, rt.alloc(), &mut shelf, name, *limit, want, *calls);
    }
    Ok(())
}

// Which call fails, the answer and the number of calls.
const FAILING_READS: &[(u64, Answer<'static>, u64)] = &[
    (1, Err(ReadStop::Fault), 1),
    (2, Err(ReadStop::Fault), 2),
    (3, Err(ReadStop::Fault), 3),
    (4, Ok(b"elect"), 3),
];

#[test]
fn each_call_of_a_shelf_fails_in_turn(rt: HostRuntime) -> Result<(), AllocError> {
    for (call, want, calls) in FAILING_READS {
        let mut shelf = shelf_of_rules(rt.alloc())?;
        shelf.fail_at(*call)?;
        expect_read(&rt, rt.alloc(), &mut shelf, "rule", 5, want, *calls);
    }
    Ok(())
}

// Writes a text to this sink, and wants so much of it there after so many calls.
fn expect_written(rt: &impl Abort, sink: MemorySink, is_whole: bool, want: &[u8], calls: u64) {
    let mut sink = sink;
    assert!(rt; write_whole(&mut sink, b"").is_ok());
    assert!(rt; write_whole(&mut sink, b"elected: 1\n").is_ok() == is_whole);
    assert!(rt; sink.bytes() == want, "{want:?}");
    assert!(rt; sink.calls() == calls, "{want:?}");
}

// How much a write takes, which call fails, whether all is written, what is, and the number of calls.
const WRITES: &[(usize, u64, bool, &[u8], u64)] = &[
    (1, 0, true, b"elected: 1\n", 11),
    (100, 2, true, b"elected: 1\n", 1),
    (4, 2, false, b"elec", 2),
    (4, 1, false, b"", 1),
];

#[test]
fn writes_the_text_up_to_a_fault(rt: HostRuntime) -> Result<(), AllocError> {
    for (most, failing, is_whole, want, calls) in WRITES {
        let most = *most;
        assert!(rt; most >= 1);
        let mut sink = MemorySink::new(rt.alloc(), most);
        sink.fail_at(*failing)?;
        expect_written(&rt, sink, *is_whole, want, *calls);
    }
    Ok(())
}

const FILE_NAME: &str = "vir_outside_test_file";

#[test]
fn a_written_file_is_read_from_the_folder(rt: HostRuntime) -> Result<(), Fail> {
    let text = vec![in rt.alloc(); 7u8; 5_000]?;
    let mut sink = StreamSink::new(File::create(&rt, FILE_NAME)?);
    write_whole(&mut sink, &text)?;
    let mut shelf = FolderShelf::new(&rt);
    let read = read_whole(rt.alloc(), &mut shelf, FILE_NAME, 5_000);
    let too_long = read_whole(rt.alloc(), &mut shelf, FILE_NAME, 4_999);
    fs::remove_file(&rt, FILE_NAME)?;
    let missing = read_whole(rt.alloc(), &mut shelf, FILE_NAME, 5_000);
    assert!(rt; is_answer(&read, &Ok(text.as_slice())));
    assert!(rt; is_answer(&too_long, &Err(ReadStop::TooLong)));
    assert!(rt; is_answer(&missing, &Err(ReadStop::Fault)));
    Ok(())
}

#[test]
fn a_writer_with_no_room_is_a_fault(rt: HostRuntime) {
    let mut room = [0u8; 4];
    let written = {
        let mut sink = StreamSink::new(room.as_mut_slice());
        write_whole(&mut sink, b"elected: 1\n")
    };
    assert!(rt; written == Err(Failed));
    assert!(rt; &room == b"elec");
}
