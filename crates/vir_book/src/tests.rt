// Rule files, and what is read of them.
use crate::read_book;
use std::alloc::{AllocError, Global};
use std::process::Abort;
use vir_read::{TextError, TextKind};

// What a text is to give: its last term, printed, or the size of that term, or its fault.
enum Expected {
    Last(&'static str),
    Size(u32),
    Fault(TextKind, usize),
}

const TEXTS: &[(&str, Expected)] = &[
    ("r = elect;", Expected::Last("elect")),
    (
        "# a comment\nr = rev( plurality ) ;",
        Expected::Last("rev(plurality)"),
    ),
    (
        "a = elect; r = seq(a, pass(2, [3, 1]));",
        Expected::Last("seq(elect,pass(2,[3,1]))"),
    ),
    (
        "r = loop(3,par(max(borda),drop(1)));",
        Expected::Last("loop(3,par(max(borda),drop(1)))"),
    ),
    ("r = until(2,drop(2));", Expected::Last("until(2,drop(2))")),
    ("", Expected::Fault(TextKind::EmptyBook, 0)),
    ("r = elect; ?", Expected::Fault(TextKind::BadByte, 11)),
    ("r = elect", Expected::Fault(TextKind::Unexpected, 9)),
    (
        "r = elect; r elect",
        Expected::Fault(TextKind::Unexpected, 13),
    ),
    (
        "r = seq(foo,elect);",
        Expected::Fault(TextKind::UnknownName, 8),
    ),
    (
        "r = seq(r,elect);",
        Expected::Fault(TextKind::UnknownName, 8),
    ),
    ("r = max(elect);", Expected::Fault(TextKind::WrongSort, 8)),
    (
        "r = rev(elect,foo);",
        Expected::Fault(TextKind::WrongCountOfArguments, 4),
    ),
    ("r = pass(0);", Expected::Fault(TextKind::BadNumber, 9)),
    (
        "r = pass(1000001);",
        Expected::Fault(TextKind::BadNumber, 9),
    ),
    (
        "r = until(0,defer);",
        Expected::Fault(TextKind::BadNumber, 10),
    ),
    (
        "r = pass(1,[2,2]);",
        Expected::Fault(TextKind::RepeatedInOrder, 14),
    ),
    (
        "r = elect; r = foo;",
        Expected::Fault(TextKind::NameTwice, 11),
    ),
    ("elect = defer;", Expected::Fault(TextKind::NameTwice, 0)),
    ("until = defer;", Expected::Fault(TextKind::NameTwice, 0)),
    (
        "a=seq(elect,elect);b=seq(a,a);c=seq(b,b);d=seq(c,c);e=seq(d,d);f=seq(e,e);r=rev(seq(seq(f,e),b));",
        Expected::Size(200),
    ),
    (
        "a=seq(elect,elect);b=seq(a,a);c=seq(b,b);d=seq(c,c);e=seq(d,d);f=seq(e,e);r=rev(rev(seq(seq(f,e),b)));",
        Expected::Fault(TextKind::TooLarge, 74),
    ),
    (
        "a = seq(elect,elect);b = seq(a,a);c = seq(b,b);d = seq(c,c);e = seq(d,d);f = seq(e,e);g = seq(f,f);",
        Expected::Fault(TextKind::TooLarge, 86),
    ),
];

fn expect(
    rt: &impl Abort,
    alloc: Global,
    text: &str,
    expected: &Expected,
) -> Result<(), AllocError> {
    match (read_book(alloc, text.as_bytes()), expected) {
        (Ok(book), Expected::Last(term)) => {
            let printed = book.last_rule().print(alloc)?;
            assert!(rt; printed.as_slice() == term.as_bytes(), "{text}");
        }
        (Ok(book), Expected::Size(size)) => {
            assert!(rt; book.last_rule().size() == *size, "{text}");
        }
        (Err(TextError::Fault(fault)), Expected::Fault(kind, at)) => {
            assert!(rt; fault.kind == *kind && fault.at == *at, "{text}");
        }
        _ => assert!(rt; false, "{text}"),
    }
    Ok(())
}

#[test]
fn texts_give_what_is_expected(rt: HostRuntime) -> Result<(), AllocError> {
    for (text, expected) in TEXTS {
        expect(&rt, rt.alloc(), text, expected)?;
    }
    Ok(())
}

// `defer`, revised so often.
fn revised(alloc: Global, times: usize) -> Result<String, AllocError> {
    let mut text = String::new(alloc);
    text.push_str("r = ")?;
    for _ in 0..times {
        text.push_str("rev(")?;
    }
    text.push_str("defer")?;
    for _ in 0..times {
        text.push_str(")")?;
    }
    text.push_str(";")?;
    Ok(text)
}

#[test]
fn the_65th_level_is_one_too_many(rt: HostRuntime) -> Result<(), AllocError> {
    let deepest = revised(rt.alloc(), 63)?;
    assert!(rt; read_book(rt.alloc(), deepest.as_bytes()).is_ok());
    let text = revised(rt.alloc(), 64)?;
    expect(
        &rt,
        rt.alloc(),
        text.as_str(),
        &Expected::Fault(TextKind::TooDeep, 260),
    )
}
