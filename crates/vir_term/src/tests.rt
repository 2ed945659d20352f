// Terms at the limits and one past them, fixed orders, and printed terms.
use crate::{
    FixedOrder, Leaf, LeafKind, OrderFault, Prop, Score, Term, push_leaf, push_number, push_term,
};
use std::alloc::{AllocError, Global};
use std::process::Abort;

fn order_of(alloc: Global, list: &[u16]) -> Result<Result<FixedOrder, OrderFault>, AllocError> {
    Ok(FixedOrder::of(Vec::from_slice(alloc, list)?))
}

// The module `pass` with a list that is a fixed order, or `elect` with another one.
fn pass(alloc: Global, k: u32, list: &[u16]) -> Result<Leaf, AllocError> {
    Ok(match order_of(alloc, list)? {
        Ok(order) => Leaf::PassFirst { k, order },
        Err(_) => Leaf::Elect,
    })
}

fn boxed(alloc: Global, leaf: Leaf) -> Result<Box<Term>, AllocError> {
    Ok(Box::new(alloc, Term::Leaf(leaf))?)
}

// A module, or a pair of modules.
fn part(alloc: Global, is_pair: bool) -> Result<Term, AllocError> {
    if !is_pair {
        return Ok(Term::Leaf(Leaf::Elect));
    }
    let first = boxed(alloc, Leaf::Plurality)?;
    let second = boxed(alloc, Leaf::Elect)?;
    Ok(Term::Seq(first, second))
}

// Sequences nested in so many levels, with a part beside each.
fn nested(alloc: Global, levels: u32, of_pairs: bool) -> Result<Term, AllocError> {
    let mut term = Term::Leaf(Leaf::Defer);
    for _ in 1..levels {
        let beside = Box::new(alloc, part(alloc, of_pairs)?)?;
        let inner = Box::new(alloc, term)?;
        term = Term::Seq(inner, beside);
    }
    Ok(term)
}

// How many levels, whether of pairs, and whether the term is within the limits. There are 64 levels at
// the most; and a size of 4 for each level of pairs: 50 levels have 197.
const LEVELS: &[(u32, bool, bool)] = &[
    (1, false, true),
    (64, false, true),
    (65, false, false),
    (50, true, true),
    (51, true, false),
];

#[test]
fn the_limits_are_met_and_not_passed(rt: HostRuntime) -> Result<(), AllocError> {
    for (levels, of_pairs, fits) in LEVELS {
        let term = nested(rt.alloc(), *levels, *of_pairs)?;
        assert!(rt; term.within_limits() == *fits);
        let deepest = *levels + u32::from(*of_pairs);
        assert!(rt; term.nests_within(deepest) && !term.nests_within(deepest - 1));
    }
    Ok(())
}

// Revisions of a term of size 197, and whether that is within the limits: a size of 200 is.
const REVISIONS: &[(usize, bool)] = &[(0, true), (2, true), (3, true), (4, false)];

#[test]
fn a_term_may_have_200_parts(rt: HostRuntime) -> Result<(), AllocError> {
    for (times, fits) in REVISIONS {
        let mut term = nested(rt.alloc(), 50, true)?;
        for _ in 0..*times {
            term = Term::Rev(Box::new(rt.alloc(), term)?);
        }
        assert!(rt; term.within_limits() == *fits, "{times} more");
    }
    Ok(())
}

// The number of a module, and whether a term may have it.
const COUNTS: &[(u32, bool)] = &[(0, false), (1, true), (1_000_000, true), (1_000_001, false)];

#[test]
fn numbers_are_limited(rt: HostRuntime) -> Result<(), AllocError> {
    for (k, fits) in COUNTS {
        let passed = pass(rt.alloc(), *k, &[])?;
        assert!(rt; passed.in_range() == *fits);
        assert!(rt; Term::Leaf(passed).within_limits() == *fits);
        let body = boxed(rt.alloc(), Leaf::Defer)?;
        assert!(rt; Term::Loop { k: *k, body }.within_limits() == *fits);
        let body = boxed(rt.alloc(), Leaf::Defer)?;
        assert!(rt; Term::Until { k: *k, body }.within_limits() == *fits);
    }
    Ok(())
}

// Numbers and their digits.
const DIGITS: &[(u64, &[u8])] = &[
    (0, b"k = 0"),
    (1_024, b"k = 1024"),
    (18_446_744_073_709_551_615, b"k = 18446744073709551615"),
];

#[test]
fn texts_are_appended(rt: HostRuntime) -> Result<(), AllocError> {
    for (number, digits) in DIGITS {
        let mut text = Vec::from_slice(rt.alloc(), b"k = ")?;
        push_number(&mut text, *number)?;
        assert!(rt; text.as_slice() == *digits);
    }
    let leaf = pass(rt.alloc(), 3, &[2])?;
    let mut text = Vec::from_slice(rt.alloc(), b"a = ")?;
    push_leaf(&mut text, &leaf)?;
    assert!(rt; text.as_slice() == b"a = pass(3,[2])".as_slice());
    push_term(
        &mut text,
        &Term::Rev(Box::new(rt.alloc(), Term::Leaf(leaf))?),
    )?;
    assert!(rt; text.as_slice() == b"a = pass(3,[2])rev(pass(3,[2]))".as_slice());
    Ok(())
}

#[test]
fn properties_are_listed(rt: HostRuntime) {
    let props = Prop::all();
    assert!(rt; props.len() == 18);
    assert!(rt; props.first() == Some(&Prop::Ne) && props.last() == Some(&Prop::Neut));
    assert!(rt; props.contains(&Prop::Elim(1)));
}

// A list, and its first fault as a fixed order.
const ORDERS: &[(&[u16], Option<OrderFault>)] = &[
    (&[], None),
    (&[3, 1], None),
    (&[1, 1_024], None),
    (&[0], Some(OrderFault::OutOfRange)),
    (&[2, 1_025, 2], Some(OrderFault::OutOfRange)),
    (&[2, 2, 0], Some(OrderFault::Repeated)),
];

#[test]
fn orders_are_judged_from_the_front(rt: HostRuntime) -> Result<(), AllocError> {
    for (list, fault) in ORDERS {
        match order_of(rt.alloc(), list)? {
            Ok(order) => {
                assert!(rt; fault.is_none() && order.len() == list.len());
                assert!(rt; order.is_empty() || order.at(0) == list[0]);
            }
            Err(found) => assert!(rt; *fault == Some(found)),
        }
    }
    Ok(())
}

fn expect_text(
    rt: &impl Abort,
    alloc: Global,
    term: &Term,
    size: u32,
    text: &str,
) -> Result<(), AllocError> {
    assert!(rt; term.print(alloc)?.as_slice() == text.as_bytes());
    let copy = term.copy(alloc)?;
    assert!(rt; copy.equals(term));
    assert!(rt; copy.within_limits() && copy.size() == size);
    Ok(())
}

#[test]
fn compositions_are_written_without_spaces(rt: HostRuntime) -> Result<(), AllocError> {
    let alloc = rt.alloc();
    let first = boxed(alloc, pass(alloc, 2, &[3, 1])?)?;
    let second = boxed(alloc, pass(alloc, 10, &[])?)?;
    let term = Term::Par(first, second);
    expect_text(&rt, alloc, &term, 3, "par(pass(2,[3,1]),pass(10))")?;
    let body = Box::new(alloc, Term::Rev(boxed(alloc, Leaf::Plurality)?))?;
    let term = Term::Loop { k: 1, body };
    expect_text(&rt, alloc, &term, 3, "loop(1,rev(plurality))")?;
    let body = Box::new(alloc, Term::Leaf(Leaf::Min(Score::Plurality)))?;
    let term = Term::Until { k: 2, body };
    expect_text(&rt, alloc, &term, 2, "until(2,min(plurality))")?;
    let other = part(alloc, true)?;
    expect_text(&rt, alloc, &other, 3, "seq(plurality,elect)")?;
    assert!(rt; !other.equals(&term));
    Ok(())
}

// Modules of scores, their kinds and texts.
const MODULES: &[(LeafKind, &str)] = &[
    (LeafKind::Max(Score::Copeland), "max(copeland)"),
    (LeafKind::Min(Score::Plurality), "min(plurality)"),
    (LeafKind::Below(Score::Borda), "below(borda)"),
    (LeafKind::Upto(Score::Minimax), "upto(minimax)"),
    (LeafKind::Max(Score::Condorcet), "max(condorcet)"),
    (LeafKind::Defer, "defer"),
];

// The module of a kind that has neither a number nor an order.
fn module(kind: LeafKind) -> Leaf {
    match kind {
        LeafKind::Max(score) => Leaf::Max(score),
        LeafKind::Min(score) => Leaf::Min(score),
        LeafKind::Below(score) => Leaf::Below(score),
        LeafKind::Upto(score) => Leaf::Upto(score),
        LeafKind::Plurality => Leaf::Plurality,
        LeafKind::Defer => Leaf::Defer,
        _ => Leaf::Elect,
    }
}

#[test]
fn modules_are_written_with_their_scores(rt: HostRuntime) -> Result<(), AllocError> {
    for (kind, text) in MODULES {
        let leaf = module(*kind);
        assert!(rt; leaf.print(rt.alloc())?.as_slice() == text.as_bytes());
        let copy = leaf.copy(rt.alloc())?;
        assert!(rt; copy.kind() == *kind);
    }
    let dropped = pass(rt.alloc(), 1, &[2])?;
    assert!(rt; dropped.kind() == LeafKind::PassFirst);
    assert!(rt; Score::Minimax.name() == "minimax");
    Ok(())
}
