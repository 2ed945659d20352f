// What is kept of a term while a text is judged. A term past the limit is not built.
ghost use Rattle.std.specs.Prelude.{◌≡◌, Ok};
ghost use Rattle.vir_term.specs.Tree.{Tree, leaf, rev, loop};
ghost use Rattle.vir_read.specs.Typing.{pair_tree, end_of};
ghost use Rattle.vir_read.specs.SharedTerms.{tree};
ghost use Rattle.vir_read.specs.Built.{IsKeptOf, Builds};

use crate::built_in::{LoopEnd, Pair};
use crate::shared_term::SharedTerm;
use crate::text_fault::TextError;
use std::alloc::Global;
use std::rc::Rc;
use vir_term::{Leaf, SIZE_LIMIT};

/// What is kept of a term.
#[derive(Drop)]
pub enum Built {
    /// The term, and its size, which is within the limit.
    Small { term: SharedTerm, size: u32 },
    /// Only that its size is not.
    Large,
}

// A module.
pub fn build_leaf(alloc: Global, electoral_module: Leaf) -> Result<Built, TextError>
    ensures { Builds result (Ok (leaf electoral_module)) }
{
    match Rc::new(alloc, electoral_module) {
        Ok(electoral_module) => Ok(Built::Small {
            term: SharedTerm::Leaf(electoral_module),
            size: 1,
        }),
        Err(_) => Err(TextError::Memory),
    }
}

// A composition of one term.
pub fn build_rev(alloc: Global, part: Built) -> Result<Built, TextError>
    ensures { (t : Tree) → IsKeptOf part t → Builds result (Ok (rev t)) }
{
    let Built::Small { term, size } = part else {
        return Ok(Built::Large);
    };
    if size >= SIZE_LIMIT {
        return Ok(Built::Large);
    }
    match Rc::new(alloc, term) {
        Ok(part) => Ok(Built::Small {
            term: SharedTerm::Rev(part),
            size: size + 1,
        }),
        Err(_) => Err(TextError::Memory),
    }
}

// A composition of a number and a term.
fn loop_term(end: LoopEnd, k: u32, body: Rc<SharedTerm>) -> SharedTerm
    ensures { tree result ≡ loop (end_of end k) (tree body.value) }
{
    match end {
        LoopEnd::Exactly => SharedTerm::Loop { k, body },
        LoopEnd::AtMost => SharedTerm::Until { k, body },
    }
}

// The same of what is kept of the term.
pub fn build_loop(alloc: Global, end: LoopEnd, k: u32, body: Built) -> Result<Built, TextError>
    ensures { (t : Tree) → IsKeptOf body t → Builds result (Ok (loop (end_of end k) t)) }
{
    let Built::Small { term, size } = body else {
        return Ok(Built::Large);
    };
    if size >= SIZE_LIMIT {
        return Ok(Built::Large);
    }
    match Rc::new(alloc, term) {
        Ok(body) => Ok(Built::Small {
            term: loop_term(end, k, body),
            size: size + 1,
        }),
        Err(_) => Err(TextError::Memory),
    }
}

// A composition of two terms.
fn pair_term(pair: Pair, first: Rc<SharedTerm>, second: Rc<SharedTerm>) -> SharedTerm
    ensures { tree result ≡ pair_tree pair (tree first.value) (tree second.value) }
{
    match pair {
        Pair::Seq => SharedTerm::Seq(first, second),
        Pair::Par => SharedTerm::Par(first, second),
    }
}

// The same of what is kept of the terms.
#[tactic(auto, using(crate::proofs::TypingLemmas::pair_size))]
pub fn build_pair(
    alloc: Global,
    pair: Pair,
    first: Built,
    second: Built,
) -> Result<Built, TextError>
    ensures { (s t : Tree) → IsKeptOf first s → IsKeptOf second t → Builds result (Ok (pair_tree pair s t)) }
{
    let Built::Small {
        term: first,
        size: n,
    } = first
    else {
        return Ok(Built::Large);
    };
    let Built::Small {
        term: second,
        size: m,
    } = second
    else {
        return Ok(Built::Large);
    };
    if n.saturating_add(m) >= SIZE_LIMIT {
        return Ok(Built::Large);
    }
    match Rc::new(alloc, first) {
        Ok(first) => match Rc::new(alloc, second) {
            Ok(second) => Ok(Built::Small {
                term: pair_term(pair, first, second),
                size: n + m + 1,
            }),
            Err(_) => Err(TextError::Memory),
        },
        Err(_) => Err(TextError::Memory),
    }
}
