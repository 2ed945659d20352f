// The limits of lines, of voters and of bytes.
use std::alloc::{AllocError, Global};
use vir_soc::{SocError, SocFault, SocKind, SocReader};

// Feeds the same piece so many times.
fn feed_times(reader: &mut SocReader, piece: &[u8], times: u32) -> Result<(), SocError> {
    for _ in 0..times {
        reader.feed(piece)?;
    }
    Ok(())
}

// What is answered to this piece behind a full profile: 1,000,000 lines of 2^64 - 1 voters in all.
fn after_a_million(alloc: Global, piece: &[u8]) -> Result<(), SocError> {
    let mut reader = SocReader::new(alloc);
    reader.feed(b"# NUMBER ALTERNATIVES: 2\n18446744073709551615: 1,2\n")?;
    feed_times(&mut reader, b"0: 2,1\n", 999_999)?;
    reader.feed(piece)
}

// A fault of the line behind the full profile.
fn behind(kind: SocKind) -> Result<(), SocError> {
    Err(SocError::Fault(SocFault {
        line: 1_000_002,
        kind,
    }))
}

#[test]
fn a_million_orders_and_one(rt: HostRuntime) {
    assert!(rt; after_a_million(rt.alloc(), b"0: 2,1\n") == behind(SocKind::TooManyOrders));
}

#[test]
fn too_many_orders_comes_before_too_many_voters(rt: HostRuntime) {
    assert!(rt; after_a_million(rt.alloc(), b"1: 2,1\n") == behind(SocKind::TooManyOrders));
}

#[test]
fn short_comes_before_too_many_orders(rt: HostRuntime) {
    assert!(rt; after_a_million(rt.alloc(), b"1: 2\n") == behind(SocKind::Short));
}

#[test]
fn the_most_bytes_and_one(rt: HostRuntime) -> Result<(), AllocError> {
    let mut comment = vec![in rt.alloc(); b'#'; 65_535]?;
    comment.push(b'\n')?;
    let mut reader = SocReader::new(rt.alloc());
    assert!(rt; feed_times(&mut reader, &comment, 4_096) == Ok(()));
    let fault = SocFault {
        line: 4_097,
        kind: SocKind::FileTooLong,
    };
    assert!(rt; reader.feed(b"#") == Err(SocError::Fault(fault)));
    Ok(())
}
