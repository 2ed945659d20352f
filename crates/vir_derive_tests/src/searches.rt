// The first terms with some properties.
use std::alloc::{AllocError, Global};
use std::process::Abort;
use vir_read::TextError;
use vir_rules::Prop;
use vir_samples::{MODULES, modules_of};
use vir_synth::{first_fast, first_plain};
use vir_term::Term;

// A size, the wanted properties, the modules, and the first term, where there is one.
const FOUND: &[(u32, &[Prop], &[&str], Option<&str>)] = &[
    (
        3,
        &[Prop::Cc, Prop::Mono, Prop::El],
        MODULES,
        Some("seq(max(copeland),elect)"),
    ),
    (3, &[Prop::El, Prop::Mono], &["elect"], Some("elect")),
    (2, &[Prop::Cc, Prop::Mono, Prop::El], MODULES, None),
    (3, &[Prop::Ne, Prop::El], MODULES, None),
    (
        1,
        &[Prop::Defers(7)],
        &["pass(2)", "pass(7)"],
        Some("pass(7)"),
    ),
    (0, &[Prop::El], MODULES, None),
];

// The text of a term, empty where there is none.
fn text_of(alloc: Global, found: Option<Term>) -> Result<Vec<u8>, AllocError> {
    match found {
        Some(term) => term.print(alloc),
        None => Ok(Vec::new(alloc)),
    }
}

#[test]
fn both_searches_find_the_first(rt: HostRuntime) -> Result<(), TextError> {
    let alloc = rt.alloc();
    for (size, props, texts, expected) in FOUND {
        let leaves = modules_of(alloc, texts)?;
        let expected = expected.unwrap_or("");
        let plain = text_of(alloc, first_plain(alloc, &leaves, props, *size)?)?;
        assert!(rt;
            plain.as_slice() == expected.as_bytes(),
            "plain: {expected}"
        );
        let fast = text_of(alloc, first_fast(alloc, &leaves, props, *size)?)?;
        assert!(rt; fast.as_slice() == expected.as_bytes(), "fast: {expected}");
    }
    Ok(())
}

// Each property, with both numbers that rules ask for.
const SINGLE: &[Prop] = &[
    Prop::Ne,
    Prop::Ea,
    Prop::El,
    Prop::Defers(1),
    Prop::Defers(2),
    Prop::Rejects(1),
    Prop::Rejects(2),
    Prop::Elim(1),
    Prop::Elim(2),
    Prop::Nb,
    Prop::Decr,
    Prop::Dli,
    Prop::Imono,
    Prop::Dimono,
    Prop::Dmono,
    Prop::Mono,
    Prop::Cc,
    Prop::Dcc,
    Prop::Cprog,
    Prop::Ccomp,
    Prop::Neut,
];

#[test]
fn the_searches_agree(rt: HostRuntime) -> Result<(), TextError> {
    let alloc = rt.alloc();
    let leaves = modules_of(alloc, MODULES)?;
    for prop in SINGLE {
        for size in 1..4 {
            let plain = text_of(alloc, first_plain(alloc, &leaves, &[*prop], size)?)?;
            let fast = text_of(alloc, first_fast(alloc, &leaves, &[*prop], size)?)?;
            assert!(rt; plain.as_slice() == fast.as_slice(), "{prop:?} {size}");
        }
    }
    Ok(())
}

// Of these terms there are more than 3,000,000,000.
#[test]
fn none_elects_nobody_and_somebody(rt: HostRuntime) -> Result<(), TextError> {
    let alloc = rt.alloc();
    let leaves = modules_of(alloc, MODULES)?;
    let found = first_fast(alloc, &leaves, &[Prop::Ne, Prop::El], 9)?;
    assert!(rt; found.is_none());
    Ok(())
}
