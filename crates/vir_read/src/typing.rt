// The term that a tree stands for.
ghost use Rattle.std.specs.Prelude.{ℕ, ◌≡◌, ◌≤◌, ◌+◌, List, [], length, Some, IsTrue, IfOk};
ghost use Rattle.vir_term.specs.Tree.{Tree, tree, size};
ghost use Rattle.vir_term.specs.Limits.{nesting_limit, size_limit, IsWithinLimits};
ghost use Rattle.vir_read.specs.Faults.{Gives};
ghost use Rattle.vir_read.specs.RawTrees.{raw_tree, listed, gathered};
ghost use Rattle.vir_read.specs.BuiltIns.{built_in_named, takes};
ghost use Rattle.vir_read.specs.Arguments.{AreWithinLimits, Names};
ghost use Rattle.vir_read.specs.SharedTerms as shared;
ghost use Rattle.vir_read.specs.Typing as typing;
ghost use Rattle.vir_read.specs.Typing.{composition_of, arguments_of, built_in_term, defined_term};
ghost use Rattle.vir_read.specs.Typing.{word_term, term_at, term_of, first_place};
ghost use Rattle.vir_read.specs.Built.{Builds};

use crate::arguments::{count_of, order_of, score_argument, span};
use crate::built::{Built, build_leaf, build_loop, build_pair, build_rev};
use crate::built_in::{BuiltIn, Eliminator, LoopEnd, Ordered, Pair, Plain, built_in_named};
use crate::names::{Names, SharedNames};
use crate::raw::{Raw, RawList};
use crate::shared_term::SharedTerm;
use crate::text_fault::{TextError, TextKind};
use std::alloc::Global;
use vir_term::{FixedOrder, Leaf, NESTING_LIMIT, Score, Term};

fn plain_leaf(plain: Plain) -> Leaf
    ensures { result ≡ typing.plain_leaf plain }
{
    match plain {
        Plain::Elect => Leaf::Elect,
        Plain::Defer => Leaf::Defer,
        Plain::Plurality => Leaf::Plurality,
    }
}

fn ordered_leaf(ordered: Ordered, k: u32, order: FixedOrder) -> Leaf
    ensures { result ≡ typing.ordered_leaf ordered k order }
{
    match ordered {
        Ordered::Pass => Leaf::PassFirst { k, order },
        Ordered::Drop => Leaf::DropFirst { k, order },
    }
}

fn eliminator_leaf(eliminator: Eliminator, score: Score) -> Leaf
    ensures { result ≡ typing.eliminator_leaf eliminator score }
{
    match eliminator {
        Eliminator::Max => Leaf::Max(score),
        Eliminator::Min => Leaf::Min(score),
        Eliminator::Below => Leaf::Below(score),
        Eliminator::Upto => Leaf::Upto(score),
    }
}

// The order of the numbers.
fn no_order(alloc: Global) -> FixedOrder
    ensures { result ≡ [] }
{
    match FixedOrder::of(Vec::new(alloc)) {
        Ok(order) => order,
        Err(_) => unreachable!(),
    }
}

// What the trees of a text are typed by: the text, and the terms that its names stand for.
#[derive(Drop)]
struct Context<'a, M: SharedNames> {
    alloc: Global,
    text: &'a [u8],
    names: &'a M,
    ghost within: { (name : List ℕ) (t : Tree) → M.meaning names.now name ≡ Some t → size t ≤ size_limit },
}

// The term of a defined name, which is shared.
fn share_defined<M: SharedNames>(
    context: &Context<M>,
    name: &[u8],
    count: usize,
    level: u32,
    at: usize,
) -> Result<Built, TextError>
    requires { level ≤ nesting_limit + 1 }
    ensures { Builds result (defined_term at level count (M.meaning context.now.names.now name.now)) }
{
    match context.names.share(context.alloc, name) {
        Err(_) => Err(TextError::Memory),
        Ok(None) => Err(TextError::fault(TextKind::UnknownName, at)),
        Ok(Some(term)) => {
            if count != 0 {
                return Err(TextError::fault(TextKind::WrongCountOfArguments, at));
            }
            if !term.nests_within(NESTING_LIMIT + 1 - level) {
                return Err(TextError::fault(TextKind::TooDeep, at));
            }
            let size = term.size();
            Ok(Built::Small { term, size })
        }
    }
}

// A built-in word with as many arguments as it takes, which is not too deep.
#[cycle(typing)]
fn build_composition<M: SharedNames>(
    context: &Context<M>,
    word: BuiltIn,
    parts: &RawList,
    level: u32,
) -> Result<Built, TextError>
    requires takes { IsTrue (takes word (length (listed parts.now))) }
    requires level { level ≤ nesting_limit }
    ensures { (at : ℕ) → Builds result (composition_of context.now.text.now (M.meaning context.now.names.now) at level
        word (arguments_of context.now.text.now (M.meaning context.now.names.now) (gathered (listed parts.now)))) }
{
    match (word, parts.one(), parts.two()) {
        (BuiltIn::Plain(plain), ..) => build_leaf(context.alloc, plain_leaf(plain)),
        (BuiltIn::Ordered(ordered), Some(k), _) => {
            let k = count_of(context.text, k)?;
            build_leaf(
                context.alloc,
                ordered_leaf(ordered, k, no_order(context.alloc)),
            )
        }
        (BuiltIn::Ordered(ordered), _, Some((k, order))) => {
            let k = count_of(context.text, k)?;
            let order = order_of(context.alloc, context.text, order)?;
            build_leaf(context.alloc, ordered_leaf(ordered, k, order))
        }
        (BuiltIn::Eliminator(eliminator), Some(score), _) => {
            let score = score_argument(context.text, context.names, score)?;
            build_leaf(context.alloc, eliminator_leaf(eliminator, score))
        }
        (BuiltIn::Rev, Some(part), _) => {
            let part = build_term(context, part, level + 1)?;
            build_rev(context.alloc, part)
        }
        (BuiltIn::Pair(pair), _, Some((first, second))) => {
            let first = build_term(context, first, level + 1)?;
            let second = build_term(context, second, level + 1)?;
            build_pair(context.alloc, pair, first, second)
        }
        (BuiltIn::Loop(end), _, Some((k, body))) => {
            let k = count_of(context.text, k)?;
            let body = build_term(context, body, level + 1)?;
            build_loop(context.alloc, end, k, body)
        }
        _ => unreachable!(),
    }
}

#[cycle(typing)]
#[tactic(auto, using(crate::proofs::TypingLemmas::length_arguments_of))]
fn build_built_in<M: SharedNames>(
    context: &Context<M>,
    word: BuiltIn,
    parts: &RawList,
    level: u32,
    at: usize,
) -> Result<Built, TextError>
    requires { level ≤ nesting_limit + 1 }
    ensures { Builds result (built_in_term context.now.text.now (M.meaning context.now.names.now) at level word
        (arguments_of context.now.text.now (M.meaning context.now.names.now) (gathered (listed parts.now)))) }
{
    if word.is_only_score() {
        return Err(TextError::fault(TextKind::WrongSort, at));
    }
    if !word.takes(parts.len()) {
        return Err(TextError::fault(TextKind::WrongCountOfArguments, at));
    }
    if level > NESTING_LIMIT {
        return Err(TextError::fault(TextKind::TooDeep, at));
    }
    build_composition(context, word, parts, level)
}

#[cycle(typing)]
#[tactic(auto, using(crate::proofs::TypingLemmas::length_arguments_of))]
fn build_word<M: SharedNames>(
    context: &Context<M>,
    name: &[u8],
    parts: &RawList,
    level: u32,
    at: usize,
) -> Result<Built, TextError>
    requires { level ≤ nesting_limit + 1 }
    ensures { Builds result (word_term context.now.text.now (M.meaning context.now.names.now) at level name.now
        (arguments_of context.now.text.now (M.meaning context.now.names.now) (gathered (listed parts.now)))
        (built_in_named name.now)) }
{
    match built_in_named(name) {
        Some(word) => build_built_in(context, word, parts, level, at),
        None => share_defined(context, name, parts.len(), level, at),
    }
}

// What is kept of the term of a tree, where a term is wanted at a level of nesting.
#[cycle(typing)]
fn build_term<M: SharedNames>(
    context: &Context<M>,
    raw: &Raw,
    level: u32,
) -> Result<Built, TextError>
    requires { level ≤ nesting_limit + 1 }
    ensures { Builds result (term_at context.now.text.now (M.meaning context.now.names.now) (raw_tree raw.now) level) }
{
    match raw {
        Raw::Number { start, .. } => Err(TextError::fault(TextKind::WrongSort, *start as usize)),
        Raw::List { start, .. } => Err(TextError::fault(TextKind::WrongSort, *start as usize)),
        Raw::Word { start, end, parts } => build_word(
            context,
            span(context.text, *start, *end),
            parts,
            level,
            *start as usize,
        ),
    }
}

// The term of a tree, without a word on its limits.
fn term_in_size<M: SharedNames>(
    alloc: Global,
    text: &[u8],
    raw: &Raw,
    names: &M,
    at: usize,
) -> Result<SharedTerm, TextError>
    requires { AreWithinLimits (M.meaning names.now) }
    ensures { Gives shared.tree result (term_of text.now (M.meaning names.now) at (raw_tree raw.now)) }
{
    match build_term(&Context { alloc, text, names }, raw, 1) {
        Ok(Built::Small { term, .. }) => Ok(term),
        Ok(Built::Large) => Err(TextError::fault(TextKind::TooLarge, at)),
        Err(e) => Err(e),
    }
}

/// The same as `type_term_at`, of which parts may be shared with the terms of names.
pub fn share_term_at<M: SharedNames>(
    alloc: Global,
    text: &[u8],
    raw: &Raw,
    names: &M,
    at: usize,
) -> Result<SharedTerm, TextError>
    requires { AreWithinLimits (M.meaning names.now) }
    ensures meant { Gives shared.tree result (term_of text.now (M.meaning names.now) at (raw_tree raw.now)) }
    ensures within { IfOk result (λ term. IsWithinLimits (shared.tree term)) }
{
    term_in_size(alloc, text, raw, names, at)
}

/// The term that a tree stands for, or its first fault in preorder; last that the term is too large, which
/// is told at the place `at`.
pub fn type_term_at<M: Names>(
    alloc: Global,
    text: &[u8],
    raw: &Raw,
    names: &M,
    at: usize,
) -> Result<Term, TextError>
    requires { AreWithinLimits (M.meaning names.now) }
    ensures meant { Gives tree result (term_of text.now (M.meaning names.now) at (raw_tree raw.now)) }
    ensures within { IfOk result (λ term. IsWithinLimits (tree term)) }
{
    match share_term_at(alloc, text, raw, &names, at) {
        Ok(term) => match term.to_term(alloc) {
            Ok(term) => Ok(term),
            Err(_) => Err(TextError::Memory),
        },
        Err(e) => Err(e),
    }
}

fn first_place(raw: &Raw) -> usize
    ensures { result ≡ first_place (raw_tree raw.now) }
{
    match raw {
        Raw::Word { start, .. } => *start as usize,
        Raw::Number { start, .. } => *start as usize,
        Raw::List { start, .. } => *start as usize,
    }
}

/// The same; that the term is too large is told where the tree begins.
pub fn type_term<M: Names>(
    alloc: Global,
    text: &[u8],
    raw: &Raw,
    names: &M,
) -> Result<Term, TextError>
    requires { AreWithinLimits (M.meaning names.now) }
    ensures meant { Gives tree result (term_of text.now (M.meaning names.now) (first_place (raw_tree raw.now))
        (raw_tree raw.now)) }
    ensures within { IfOk result (λ term. IsWithinLimits (tree term)) }
{
    type_term_at(alloc, text, raw, names, first_place(raw))
}
