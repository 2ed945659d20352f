// Rules as they stand in a table.
use std::alloc::{AllocError, Global};
use std::process::Abort;
use vir_term::{FixedOrder, Leaf, LeafKind, Term};

/// A word of a rule: a module, or what is composed of the rules before it, so that the parts of a
/// composition stand before its name.
#[derive(Clone, Copy, Debug)]
pub enum Word {
    Module(LeafKind),
    Pass(u32, &'static [u16]),
    Drop(u32, &'static [u16]),
    Rev,
    Seq,
    Par,
    Loop(u32),
    Until(u32),
}

fn order_of(rt: &impl Abort, alloc: Global, list: &[u16]) -> Result<FixedOrder, AllocError> {
    match FixedOrder::of(Vec::from_slice(alloc, list)?) {
        Ok(order) => Ok(order),
        Err(fault) => panic!(rt; "{fault:?} in {list:?}"),
    }
}

// The module of a kind that has no number.
fn module_of(rt: &impl Abort, kind: LeafKind) -> Leaf {
    match kind {
        LeafKind::Elect => Leaf::Elect,
        LeafKind::Defer => Leaf::Defer,
        LeafKind::Plurality => Leaf::Plurality,
        LeafKind::Max(score) => Leaf::Max(score),
        LeafKind::Min(score) => Leaf::Min(score),
        LeafKind::Below(score) => Leaf::Below(score),
        LeafKind::Upto(score) => Leaf::Upto(score),
        LeafKind::PassFirst | LeafKind::DropFirst => panic!(rt; "{kind:?} needs a number"),
    }
}

// The last of the rules before a word.
fn last(rt: &impl Abort, alloc: Global, rules: &mut Vec<Term>) -> Result<Box<Term>, AllocError> {
    match rules.pop() {
        Some(rule) => Ok(Box::new(alloc, rule)?),
        None => panic!(rt; "a composition lacks a part"),
    }
}

// What a word makes of the rules before it.
fn rule_of(
    rt: &impl Abort,
    alloc: Global,
    word: Word,
    rules: &mut Vec<Term>,
) -> Result<Term, AllocError> {
    match word {
        Word::Module(kind) => Ok(Term::Leaf(module_of(rt, kind))),
        Word::Pass(k, list) => {
            let order = order_of(rt, alloc, list)?;
            Ok(Term::Leaf(Leaf::PassFirst { k, order }))
        }
        Word::Drop(k, list) => {
            let order = order_of(rt, alloc, list)?;
            Ok(Term::Leaf(Leaf::DropFirst { k, order }))
        }
        Word::Rev => Ok(Term::Rev(last(rt, alloc, rules)?)),
        Word::Seq => {
            let second = last(rt, alloc, rules)?;
            Ok(Term::Seq(last(rt, alloc, rules)?, second))
        }
        Word::Par => {
            let second = last(rt, alloc, rules)?;
            Ok(Term::Par(last(rt, alloc, rules)?, second))
        }
        Word::Loop(k) => {
            let body = last(rt, alloc, rules)?;
            Ok(Term::Loop { k, body })
        }
        Word::Until(k) => {
            let body = last(rt, alloc, rules)?;
            Ok(Term::Until { k, body })
        }
    }
}

/// The rule of these words.
pub fn term_of(rt: &impl Abort, alloc: Global, words: &[Word]) -> Result<Term, AllocError> {
    let mut rules = Vec::new(alloc);
    for word in words {
        let rule = rule_of(rt, alloc, *word, &mut rules)?;
        rules.push(rule)?;
    }
    match rules.pop() {
        Some(rule) => Ok(rule),
        None => panic!(rt; "no rule in {words:?}"),
    }
}
