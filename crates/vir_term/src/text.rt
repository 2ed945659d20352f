// Terms in the rule language, appended to a text.
ghost use Rattle.std.specs.Prelude.{◌++◌, codes, decimal};
ghost use Rattle.vir_term.specs.Appending.{Appends};
ghost use Rattle.vir_term.specs.Tree.{tree};
ghost use Rattle.vir_term.specs.Text.{order_text, score_text, leaf_text, term_text};

use crate::fixed_order::FixedOrder;
use crate::leaf::Leaf;
use crate::number::push_number;
use crate::score::Score;
use crate::term::Term;
use std::alloc::AllocError;

// The order as a second argument; the empty one is left out.
#[tactic(auto, using(crate::proofs::Beginnings::beginnings))]
fn push_order(text: &mut Vec<u8>, order: &FixedOrder) -> Result<(), AllocError>
    ensures { Appends result text.old.items text.new.items (order_text order.now) }
{
    if order.is_empty() {
        return Ok(());
    }
    text.extend_from_slice(b",[")?;
    push_number(text, u64::from(order.at(0)))?;
    for i in 1..order.len() {
        text.extend_from_slice(b",")?;
        push_number(text, u64::from(order.at(i)))?;
    }
    text.extend_from_slice(b"]")
}

// A module with a number and an order, whose name ends with its opening parenthesis.
#[tactic(auto, using(crate::proofs::Beginnings::beginnings))]
fn push_module(
    text: &mut Vec<u8>,
    name: &[u8],
    k: u32,
    order: &FixedOrder,
) -> Result<(), AllocError>
    ensures { Appends result text.old.items text.new.items
        (name.now ++ decimal k ++ order_text order.now ++ codes ")") }
{
    text.extend_from_slice(name)?;
    push_number(text, u64::from(k))?;
    push_order(text, order)?;
    text.extend_from_slice(b")")
}

// An eliminator, whose name ends with its opening parenthesis.
#[tactic(auto, using(crate::proofs::Beginnings::beginnings))]
fn push_eliminator(text: &mut Vec<u8>, name: &[u8], score: Score) -> Result<(), AllocError>
    ensures { Appends result text.old.items text.new.items (name.now ++ score_text score ++ codes ")") }
{
    text.extend_from_slice(name)?;
    text.extend_from_slice(score.name().as_bytes())?;
    text.extend_from_slice(b")")
}

/// Appends the module's text in the rule language. After want of memory the text may have grown.
#[tactic(auto, using(crate::proofs::Beginnings::beginnings))]
pub fn push_leaf(text: &mut Vec<u8>, leaf: &Leaf) -> Result<(), AllocError>
    ensures { Appends result text.old.items text.new.items (leaf_text leaf.now) }
{
    match leaf {
        Leaf::Elect => text.extend_from_slice(b"elect"),
        Leaf::Defer => text.extend_from_slice(b"defer"),
        Leaf::PassFirst { k, order } => push_module(text, b"pass(", *k, order),
        Leaf::DropFirst { k, order } => push_module(text, b"drop(", *k, order),
        Leaf::Plurality => text.extend_from_slice(b"plurality"),
        Leaf::Max(score) => push_eliminator(text, b"max(", *score),
        Leaf::Min(score) => push_eliminator(text, b"min(", *score),
        Leaf::Below(score) => push_eliminator(text, b"below(", *score),
        Leaf::Upto(score) => push_eliminator(text, b"upto(", *score),
    }
}

/// Appends the term's text in the rule language, without spaces. After want of memory the text may have
/// grown.
#[tactic(auto, using(crate::proofs::Beginnings::beginnings))]
pub fn push_term(text: &mut Vec<u8>, term: &Term) -> Result<(), AllocError>
    ensures { Appends result text.old.items text.new.items (term_text (tree term.now)) }
{
    match term {
        Term::Leaf(leaf) => push_leaf(text, leaf),
        Term::Rev(part) => {
            text.extend_from_slice(b"rev(")?;
            push_term(text, part)?;
            text.extend_from_slice(b")")
        }
        Term::Seq(first, second) => {
            text.extend_from_slice(b"seq(")?;
            push_term(text, first)?;
            text.extend_from_slice(b",")?;
            push_term(text, second)?;
            text.extend_from_slice(b")")
        }
        Term::Par(first, second) => {
            text.extend_from_slice(b"par(")?;
            push_term(text, first)?;
            text.extend_from_slice(b",")?;
            push_term(text, second)?;
            text.extend_from_slice(b")")
        }
        Term::Loop { k, body } => {
            text.extend_from_slice(b"loop(")?;
            push_number(text, u64::from(*k))?;
            text.extend_from_slice(b",")?;
            push_term(text, body)?;
            text.extend_from_slice(b")")
        }
        Term::Until { k, body } => {
            text.extend_from_slice(b"until(")?;
            push_number(text, u64::from(*k))?;
            text.extend_from_slice(b",")?;
            push_term(text, body)?;
            text.extend_from_slice(b")")
        }
    }
}
