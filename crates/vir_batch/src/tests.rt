// What a manifest lists.
use crate::{FileNames, MANIFEST_LIMIT, read_manifest};
use std::alloc::{AllocError, Global};
use vir_read::TextKind::{BadByte, TextTooLong, TooLarge};
use vir_read::{TextError, TextKind};

// Whether the text lists these names.
fn lists(alloc: Global, text: &[u8], names: &[&str]) -> bool {
    let Ok(read) = read_manifest(alloc, text) else {
        return false;
    };
    if read.len() != names.len() {
        return false;
    }
    for (i, name) in names.iter().enumerate() {
        if read.at(i) != Some(*name) {
            return false;
        }
    }
    read.at(names.len()).is_none()
}

// Whether the first fault of the text is of this kind, at this place.
fn has_fault(alloc: Global, text: &[u8], kind: TextKind, at: usize) -> bool {
    match read_manifest(alloc, text) {
        Err(TextError::Fault(fault)) => fault.kind == kind && fault.at == at,
        _ => false,
    }
}

// So many lines that name the same file.
fn lines(alloc: Global, count: usize) -> Result<Vec<u8>, AllocError> {
    let mut text = Vec::new(alloc);
    for _ in 0..count {
        text.extend_from_slice(b"a\n")?;
    }
    Ok(text)
}

// A text, and the names that it lists.
const LISTS: &[(&[u8], &[&str])] = &[
    (b"", &[]),
    (b"F\nG\nF\n", &["F", "G", "F"]),
    // the end of the text ends a line too
    (b"F\nG", &["F", "G"]),
    (b"F\r\nG\r\n", &["F", "G"]),
    (b"F\r\nG\r", &["F", "G"]),
    // an empty line is skipped
    (b"\n\r\n\nF\n\n", &["F"]),
    (b"\r", &[]),
    // one carriage return is dropped, at the end alone
    (b"F\r\r\na\rb\n\rc\n", &["F\r", "a\rb", "\rc"]),
    // blanks belong to a name
    (b" a b \n", &[" a b "]),
    (b"\xC3\xA4.soc\n", &["\u{e4}.soc"]),
];

#[test]
fn lines_are_names(rt: HostRuntime) {
    for (text, names) in LISTS {
        assert!(rt; lists(rt.alloc(), text, names));
    }
}

// A text, and its first fault.
const FAULTS: &[(&[u8], TextKind, usize)] = &[
    (b"\xFF", BadByte, 0),
    (b"F\nab\xFF\nG\n", BadByte, 2),
    (b"F\n\n\xC3", BadByte, 3),
    (b"F\r\n\xC3\r\n", BadByte, 3),
];

#[test]
fn a_line_that_is_no_text_is_refused(rt: HostRuntime) {
    for (text, kind, at) in FAULTS {
        assert!(rt; has_fault(rt.alloc(), text, *kind, *at));
    }
}

#[test]
fn one_name_too_many_is_refused(rt: HostRuntime) -> Result<(), AllocError> {
    let alloc = rt.alloc();
    let mut text = lines(alloc, 10_000)?;
    let read = read_manifest(alloc, &text);
    assert!(rt; read.is_ok_and(|names| names.len() == 10_000));
    // empty lines are no names
    text.extend_from_slice(b"\n\r\n")?;
    assert!(rt; read_manifest(alloc, &text).is_ok());
    text.extend_from_slice(b"b\n\xFF\n")?;
    assert!(rt; has_fault(alloc, &text, TooLarge, 20_003));
    Ok(())
}

#[test]
fn at_one_line_its_bytes_are_judged_first(rt: HostRuntime) -> Result<(), AllocError> {
    let alloc = rt.alloc();
    let mut text = lines(alloc, 10_000)?;
    text.extend_from_slice(b"\xFF\nb\n")?;
    assert!(rt; has_fault(alloc, &text, BadByte, 20_000));
    Ok(())
}

#[test]
fn a_longer_text_is_refused(rt: HostRuntime) -> Result<(), AllocError> {
    let alloc = rt.alloc();
    let mut text = vec![in alloc; b'\n'; MANIFEST_LIMIT]?;
    assert!(rt; read_manifest(alloc, &text).is_ok_and(|names: FileNames| names.is_empty()));
    text.push(b'\xFF')?;
    assert!(rt; has_fault(alloc, &text, TextTooLong, 1_048_576));
    Ok(())
}
