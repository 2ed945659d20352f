// The terms of small texts, where one name is defined, and the faults of others.
use std::alloc::Global;
use std::process::Abort;
use vir_book::read_book;
use vir_read::{TextError, read_raw, tokens, type_term};
use vir_term::Term;

// The term of a text whose first tree it is.
fn term_of(alloc: Global, text: &[u8]) -> Result<Term, TextError> {
    let names = read_book(alloc, b"known = seq(defer,elect);")?;
    let list = tokens(alloc, text)?;
    let end = read_raw(alloc, text, &list, 0)?;
    type_term(alloc, text, &end.raw, &names)
}

// A text, and the text of its term; or the kind of its fault, and its place.
const TERMS: &[(&str, &str, usize)] = &[
    (" rev ( known ) ", "rev(seq(defer,elect))", 0),
    ("pass(007,[])", "pass(7)", 0),
    ("drop(2,[3,1])", "drop(2,[3,1])", 0),
    (
        "loop(1,par(min(plurality),upto(condorcet)))",
        "loop(1,par(min(plurality),upto(condorcet)))",
        0,
    ),
    ("until(2,drop(2))", "until(2,drop(2))", 0),
    ("7", "WrongSort", 0),
    ("copeland", "WrongSort", 0),
    ("rev(unknown)", "UnknownName", 4),
    ("known(elect)", "WrongCountOfArguments", 0),
    ("rev", "WrongCountOfArguments", 0),
    ("loop(0,7)", "BadNumber", 5),
    ("until(0,defer)", "BadNumber", 6),
    ("pass(1,[1,1025,1])", "BadNumber", 10),
    ("pass(1,[2,2])", "RepeatedInOrder", 10),
    ("max(known)", "WrongSort", 4),
    ("max(borda(1))", "WrongCountOfArguments", 4),
    ("max(unknown)", "UnknownName", 4),
];

fn expect_term(
    rt: &impl Abort,
    alloc: Global,
    text: &str,
    what: &str,
    at: usize,
) -> Result<(), TextError> {
    match term_of(alloc, text.as_bytes()) {
        Ok(term) => assert!(rt; term.print(alloc)?.as_slice() == what.as_bytes(), "{text}"),
        Err(TextError::Fault(fault)) => assert!(rt;
            fault.kind.name() == what && fault.at == at,
            "{text}"
        ),
        Err(TextError::Memory) => assert!(rt; false, "{text}"),
    }
    Ok(())
}

#[test]
fn a_tree_stands_for_its_term(rt: HostRuntime) -> Result<(), TextError> {
    for (text, what, at) in TERMS {
        expect_term(&rt, rt.alloc(), text, what, *at)?;
    }
    Ok(())
}
