// Where the first fault of a text is.
use crate::texts::{DERIVATION, TERM, has_fault, is_read, lay_out, nest};
use std::alloc::AllocError;
use std::process::Abort;
use vir_read::TextKind;
use vir_read::TextKind::{
    BadHeader, BadNumber, TextTooLong, TooDeep, TrailingText, Unexpected, UnknownName, UnknownRule,
    WrongCountOfArguments, WrongSort,
};

// Which part of a certificate stands in the place of the good one.
enum Part {
    Version,
    Term,
    Property,
    Derivation,
}

// The version, the part that is other than in the good certificate of this version, what stands there, and the fault.
const PARTS: &[(&str, Part, &str, TextKind, usize)] = &[
    ("1", Part::Version, "01", BadHeader, 0),
    ("1", Part::Version, "3", BadHeader, 0),
    (
        "1",
        Part::Derivation,
        "mono-seq-xx(ne-leaf,dmono-leaf,ea-leaf)",
        UnknownRule,
        76,
    ),
    (
        "1",
        Part::Derivation,
        "mono-seq-ea(ne-leaf,dmono-leaf,ea-leaf,)",
        Unexpected,
        115,
    ),
    ("1", Part::Derivation, "mono-seq-ea()", Unexpected, 88),
    ("1", Part::Property, "monotone", UnknownName, 60),
    ("1", Part::Property, "mono(1)", WrongCountOfArguments, 60),
    ("1", Part::Property, "defers", WrongCountOfArguments, 60),
    ("1", Part::Property, "defers(0)", BadNumber, 67),
    ("1", Part::Property, "defers(elect)", WrongSort, 67),
    ("1", Part::Property, "7", WrongSort, 60),
    // no names are defined
    ("1", Part::Term, "r", UnknownName, 26),
    ("2", Part::Term, "r", UnknownName, 26),
    // what the first version lacks, and the second one has
    ("1", Part::Term, "until(1,defer)", UnknownName, 26),
    ("1", Part::Term, "seq(until(1,defer))", UnknownName, 30),
    ("1", Part::Term, "max(until)", UnknownName, 30),
    ("1", Part::Property, "neut", UnknownName, 60),
    (
        "1",
        Part::Derivation,
        "neut-seq(neut-leaf,neut-leaf)",
        UnknownRule,
        76,
    ),
    (
        "1",
        Part::Derivation,
        "dcc-until(cprog-leaf)",
        UnknownRule,
        76,
    ),
    (
        "2",
        Part::Term,
        "seq(until(1,defer))",
        WrongCountOfArguments,
        26,
    ),
    ("2", Part::Term, "max(until)", WrongSort, 30),
    ("2", Part::Derivation, "neut-tree", UnknownRule, 76),
];

#[test]
fn the_first_fault_of_a_part_is_told(rt: HostRuntime) -> Result<(), AllocError> {
    let alloc = rt.alloc();
    for (version, part, other, kind, at) in PARTS {
        let text = match part {
            Part::Version => lay_out(alloc, other, TERM, "mono", DERIVATION)?,
            Part::Term => lay_out(alloc, version, other, "mono", DERIVATION)?,
            Part::Property => lay_out(alloc, version, TERM, other, DERIVATION)?,
            Part::Derivation => lay_out(alloc, version, TERM, "mono", other)?,
        };
        assert!(rt; has_fault(alloc, text.as_bytes(), *kind, *at), "{other}");
    }
    Ok(())
}

// The good certificate, cut after 51 bytes.
const CUT: &[u8] = b"virage-certificate 1\nterm seq(max(copeland),elect)\n";

#[test]
fn a_text_that_is_cut_or_goes_on_is_refused(rt: HostRuntime) -> Result<(), AllocError> {
    let alloc = rt.alloc();
    let mut text = lay_out(alloc, "1", TERM, "mono", DERIVATION)?;
    assert!(rt; text.len() == 116 && is_read(alloc, text.as_bytes()));
    text.push_str("x")?;
    assert!(rt; has_fault(alloc, text.as_bytes(), TrailingText, 116));
    assert!(rt; has_fault(alloc, CUT, Unexpected, 51));
    assert!(rt; has_fault(alloc, b"", BadHeader, 0));
    assert!(rt; has_fault(alloc, b"  virage-certificate", BadHeader, 0));
    Ok(())
}

// A word so many times round what is inside, as a term, and the fault.
const DEEP_TERMS: &[(&str, usize, &str, TextKind, usize)] = &[
    ("rev", 64, "elect", TooDeep, 282),
    ("rev", 81, "elect", TooDeep, 349),
    // the signs of the tree are judged before its words
    ("until", 81, "elect", TooDeep, 511),
    ("until", 80, "elect", UnknownName, 26),
];

// The same as a derivation.
const DEEP_DERIVATIONS: &[(&str, usize, &str, TextKind, usize)] = &[
    ("ea-seq", 256, "ea-leaf", TooDeep, 1868),
    // an unknown word is no rule that is too deep
    ("ea-seq", 256, "elect", UnknownRule, 1868),
    ("ea-seq", 256, "(", Unexpected, 1868),
];

#[test]
fn what_is_too_deep_is_refused(rt: HostRuntime) -> Result<(), AllocError> {
    let alloc = rt.alloc();
    for (word, times, inside, kind, at) in DEEP_TERMS {
        let term = nest(alloc, word, *times, inside)?;
        let text = lay_out(alloc, "1", &term, "mono", DERIVATION)?;
        assert!(rt;
            has_fault(alloc, text.as_bytes(), *kind, *at),
            "{word} {times}"
        );
    }
    for (word, times, inside, kind, at) in DEEP_DERIVATIONS {
        let derivation = nest(alloc, word, *times, inside)?;
        let text = lay_out(alloc, "1", TERM, "mono", &derivation)?;
        assert!(rt;
            has_fault(alloc, text.as_bytes(), *kind, *at),
            "{word} {inside}"
        );
    }
    Ok(())
}

#[test]
fn what_is_just_not_too_deep_is_read(rt: HostRuntime) -> Result<(), AllocError> {
    let alloc = rt.alloc();
    let term = nest(alloc, "rev", 63, "elect")?;
    let derivation = nest(alloc, "ea-seq", 255, "ea-leaf")?;
    let text = lay_out(alloc, "1", &term, "mono", &derivation)?;
    assert!(rt; is_read(alloc, text.as_bytes()));
    // the signs of a property are counted anew
    let prop = nest(alloc, "defers", 80, "1")?;
    let text = lay_out(alloc, "1", &term, &prop, DERIVATION)?;
    assert!(rt; has_fault(alloc, text.as_bytes(), WrongSort, 363));
    Ok(())
}

#[test]
fn a_text_of_too_many_bytes_is_refused(rt: HostRuntime) -> Result<(), AllocError> {
    let alloc = rt.alloc();
    let text = vec![in alloc; b' '; 16_777_217]?;
    assert!(rt; has_fault(alloc, &text, TextTooLong, 16_777_216));
    Ok(())
}
