// A rule file whose names stand for parts of one another: each name is found with its own term.
use std::alloc::{AllocError, Global};
use std::process::Abort;
use vir_book::{Book, read_book, read_rule};
use vir_read::TextError;

const RULES: &str = "p=pass(1,[3,1,2]);f=seq(p,p);aaa=f;aab=par(aaa,rev(p));aac=loop(2,aab);";

// The names, each with the text of its term.
const NAMES: &[(&str, &str)] = &[
    ("p", "pass(1,[3,1,2])"),
    ("f", "seq(pass(1,[3,1,2]),pass(1,[3,1,2]))"),
    ("aaa", "seq(pass(1,[3,1,2]),pass(1,[3,1,2]))"),
    (
        "aab",
        "par(seq(pass(1,[3,1,2]),pass(1,[3,1,2])),rev(pass(1,[3,1,2])))",
    ),
    (
        "aac",
        "loop(2,par(seq(pass(1,[3,1,2]),pass(1,[3,1,2])),rev(pass(1,[3,1,2]))))",
    ),
];

fn expect_name(
    rt: &impl Abort,
    alloc: Global,
    book: &Book,
    name: &str,
    text: &str,
) -> Result<(), AllocError> {
    match book.get(name.as_bytes()) {
        Some(term) => {
            assert!(rt; term.print(alloc)?.as_slice() == text.as_bytes(), "{name}");
        }
        None => assert!(rt; false, "{name}"),
    }
    Ok(())
}

#[test]
fn each_name_has_its_own_term(rt: HostRuntime) -> Result<(), TextError> {
    let book = read_book(rt.alloc(), RULES.as_bytes())?;
    for (name, text) in NAMES {
        expect_name(&rt, rt.alloc(), &book, name, text)?;
    }
    assert!(rt; book.get(b"aad").is_none() && book.get(b"aa").is_none());
    Ok(())
}

#[test]
fn the_last_rule_is_read(rt: HostRuntime) -> Result<(), TextError> {
    let rule = read_rule(rt.alloc(), RULES.as_bytes())?;
    let text = "loop(2,par(seq(pass(1,[3,1,2]),pass(1,[3,1,2])),rev(pass(1,[3,1,2]))))";
    assert!(rt; rule.print(rt.alloc())?.as_slice() == text.as_bytes());
    Ok(())
}
