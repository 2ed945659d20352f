// Tokens and trees of small texts, and where the faults of others are.
use std::alloc::{AllocError, Global};
use std::process::Abort;
use vir_read::{Raw, RawEnd, TextError, TokenKind, read_raw, tokens};

const COMMENTED: &[u8] = b"# a (comment\r\nseq(a_1-b, [ 20 ])\t;= 9a# end";

// Each token's kind, and its places.
const COMMENTED_TOKENS: &[(TokenKind, usize, usize)] = &[
    (TokenKind::Word, 14, 17),
    (TokenKind::Sign, 17, 18),
    (TokenKind::Word, 18, 23),
    (TokenKind::Sign, 23, 24),
    (TokenKind::Sign, 25, 26),
    (TokenKind::Number, 27, 29),
    (TokenKind::Sign, 30, 31),
    (TokenKind::Sign, 31, 32),
    (TokenKind::Sign, 33, 34),
    (TokenKind::Sign, 34, 35),
    (TokenKind::Number, 36, 37),
    (TokenKind::Word, 37, 38),
];

#[test]
fn a_token_is_as_long_as_it_can_be(rt: HostRuntime) -> Result<(), TextError> {
    let list = tokens(rt.alloc(), COMMENTED)?;
    assert!(rt; list.len() == COMMENTED_TOKENS.len());
    for (token, (kind, start, end)) in list.iter().zip(COMMENTED_TOKENS) {
        assert!(rt;
            token.kind == *kind && token.start as usize == *start && token.end as usize == *end,
            "at {start}"
        );
    }
    Ok(())
}

// The first tree of a text.
fn read(alloc: Global, text: &[u8]) -> Result<RawEnd, TextError> {
    let list = tokens(alloc, text)?;
    read_raw(alloc, text, &list, 0)
}

// Whether a text begins with a tree of so many tokens, where no kind is named, or has this fault at this place.
fn is_read(alloc: Global, text: &[u8], kind: &str, at: usize) -> bool {
    match read(alloc, text) {
        Ok(end) => kind.is_empty() && end.next == at,
        Err(TextError::Fault(fault)) => fault.kind.name() == kind && fault.at == at,
        Err(TextError::Memory) => false,
    }
}

// A text, the kind of its fault, and the place; or no kind, and how many tokens the tree has.
const CASES: &[(&str, &str, usize)] = &[
    ("a", "", 1),
    ("7 8", "", 1),
    ("a(b, 1, [2, 3], []) c", "", 15),
    ("a ! b", "BadByte", 2),
    ("", "Unexpected", 0),
    ("# no more", "Unexpected", 9),
    (", a", "Unexpected", 0),
    ("a(", "Unexpected", 2),
    ("a()", "Unexpected", 2),
    ("a(b c)", "Unexpected", 4),
    ("a(b,)", "Unexpected", 4),
    ("a(b;", "Unexpected", 3),
    ("[a]", "Unexpected", 1),
    ("[1", "Unexpected", 2),
    ("[1,]", "Unexpected", 3),
];

#[test]
fn the_first_fault_is_told(rt: HostRuntime) {
    for (text, kind, at) in CASES {
        assert!(rt; is_read(rt.alloc(), text.as_bytes(), kind, *at), "{text}");
    }
}

#[test]
fn a_tree_has_its_parts_in_order(rt: HostRuntime) -> Result<(), TextError> {
    let end = read(rt.alloc(), b"a(b, [7])")?;
    let Raw::Word {
        start: 0,
        end: 1,
        parts,
    } = end.raw
    else {
        panic!(rt; "no word");
    };
    assert!(rt; parts.len() == 2);
    assert!(rt;
        matches!(
            parts.at(0),
            Some(Raw::Word {
                start: 2,
                end: 3,
                ..
            })
        )
    );
    assert!(rt; matches!(parts.at(1), Some(Raw::List { start: 5, .. })));
    Ok(())
}

// A word in so many parentheses, with a word before each.
fn nested(alloc: Global, levels: u32) -> Result<Vec<u8>, AllocError> {
    let mut text = Vec::new(alloc);
    for _ in 0..levels {
        text.extend_from_slice(b"x(")?;
    }
    text.push(b'x')?;
    for _ in 0..levels {
        text.push(b')')?;
    }
    Ok(text)
}

#[test]
fn so_many_signs_may_be_unclosed(rt: HostRuntime) -> Result<(), AllocError> {
    let deepest = nested(rt.alloc(), 80)?;
    assert!(rt; is_read(rt.alloc(), &deepest, "", 241));
    let too_deep = nested(rt.alloc(), 81)?;
    assert!(rt; is_read(rt.alloc(), &too_deep, "TooDeep", 161));
    Ok(())
}
