// The arguments that are no terms: numbers, fixed orders and scores.
ghost use Rattle.std.specs.Prelude.{◌≡◌, ◌≤◌, ◌+◌, ◌++◌, ◌∷◌, [], min, IfOk, None};
ghost use Rattle.vir_term.specs.Limits.{count_limit};
ghost use Rattle.vir_term.specs.Orders.{order_fault};
ghost use Rattle.vir_read.specs.Faults.{Gives};
ghost use Rattle.vir_read.specs.RawTrees.{raw_tree, listed, gathered};
ghost use Rattle.vir_read.specs.BuiltIns.{score_named};
ghost use Rattle.vir_read.specs.Arguments.{span, value_after, value_at, ranged, count_of, with_member, with_members};
ghost use Rattle.vir_read.specs.Arguments.{order_of, is_known, as_score, score_argument};

use crate::built_in::{built_in_named, score_named};
use crate::names::SharedNames;
use crate::raw::{Raw, RawList};
use crate::text_fault::{TextError, TextKind};
use std::alloc::Global;
use vir_term::{COUNT_LIMIT, FixedOrder, MEMBER_LIMIT, Score};

// What no number is read past: the least one that is too great everywhere.
const TOO_GREAT: u32 = COUNT_LIMIT + 1;

/// The bytes of a text from `start` to before `end`, as far as the text has them.
pub fn span(text: &[u8], start: u32, end: u32) -> &[u8]
    ensures { result.now ≡ span text.now start end }
{
    let rest = &text[(start as usize).min(text.len())..];
    let len = (end.saturating_sub(start) as usize).min(rest.len());
    &rest[..len]
}

// The number that digits write, as far as it is told apart: at most `TOO_GREAT`.
fn value(digits: &[u8]) -> u32
    ensures { result ≡ min (value_after 0 digits.now) (count_limit + 1) }
{
    let mut n = 0u32;
    for digit in digits {
        n = (n * 10 + u32::from(digit.saturating_sub(b'0'))).min(TOO_GREAT);
    }
    n
}

// The number of a span of digits, from 1 to the greatest that may stand here.
fn number(text: &[u8], start: u32, end: u32, most: u32) -> Result<u32, TextError>
    requires { most ≤ count_limit }
    ensures { Gives (λ n. n) result (ranged most start (value_at text.now start end)) }
{
    let n = value(span(text, start, end));
    if n >= 1 && n <= most {
        Ok(n)
    } else {
        Err(TextError::fault(TextKind::BadNumber, start as usize))
    }
}

/// The number of alternatives that a tree stands for, where a module or a loop wants one.
pub fn count_of(text: &[u8], raw: &Raw) -> Result<u32, TextError>
    ensures { Gives (λ k. k) result (count_of text.now (raw_tree raw.now)) }
{
    match raw {
        Raw::Number { start, end } => number(text, *start, *end, COUNT_LIMIT),
        Raw::Word { start, .. } => Err(TextError::fault(TextKind::WrongSort, *start as usize)),
        Raw::List { start, .. } => Err(TextError::fault(TextKind::WrongSort, *start as usize)),
    }
}

// The next member of a fixed order, where it isn't one of those before.
fn member_of(text: &[u8], before: &[u16], raw: &Raw) -> Result<u16, TextError>
    ensures exact { Gives (λ n. before.now ++ n ∷ []) result (with_member text.now before.now (raw_tree raw.now)) }
    ensures faultless { IfOk result (λ n. order_fault before.now ≡ None → order_fault (before.now ++ n ∷ []) ≡ None) }
{
    match raw {
        Raw::Number { start, end } => {
            let n = number(text, *start, *end, u32::from(MEMBER_LIMIT))? as u16;
            if before.contains(&n) {
                return Err(TextError::fault(TextKind::RepeatedInOrder, *start as usize));
            }
            Ok(n)
        }
        Raw::Word { start, .. } => Err(TextError::fault(TextKind::WrongSort, *start as usize)),
        Raw::List { start, .. } => Err(TextError::fault(TextKind::WrongSort, *start as usize)),
    }
}

// The fixed order of these members.
fn order_of_members(alloc: Global, text: &[u8], members: &RawList) -> Result<FixedOrder, TextError>
    ensures { Gives (λ order. order) result (with_members text.now [] (listed members.now)) }
{
    let mut list = Vec::new(alloc);
    for i in 0..members.len() {
        let Some(raw) = members.at(i) else {
            unreachable!()
        };
        let n = match member_of(text, &list, raw) {
            Ok(n) => n,
            Err(e) => return Err(e),
        };
        if list.push(n).is_err() {
            return Err(TextError::Memory);
        }
    }
    match FixedOrder::of(list) {
        Ok(order) => Ok(order),
        Err(_) => unreachable!(),
    }
}

/// The fixed order that a tree stands for, where a module wants one.
pub fn order_of(alloc: Global, text: &[u8], raw: &Raw) -> Result<FixedOrder, TextError>
    ensures { Gives (λ order. order) result (order_of text.now (raw_tree raw.now)) }
{
    match raw {
        Raw::List { members, .. } => order_of_members(alloc, text, members),
        Raw::Word { start, .. } => Err(TextError::fault(TextKind::WrongSort, *start as usize)),
        Raw::Number { start, .. } => Err(TextError::fault(TextKind::WrongSort, *start as usize)),
    }
}

/// Whether a name is built in or defined.
pub fn is_known<M: SharedNames>(names: &M, name: &[u8]) -> bool
    ensures { result ≡ is_known (M.meaning names.now) name.now }
{
    built_in_named(name).is_some() || names.is_defined(name)
}

// The score that a word at a place stands for.
fn score_word<M: SharedNames>(
    names: &M,
    name: &[u8],
    at: usize,
    parts: &RawList,
) -> Result<Score, TextError>
    ensures { Gives (λ score. score) result (as_score at (gathered (listed parts.now))
        (is_known (M.meaning names.now) name.now) (score_named name.now)) }
{
    match score_named(name) {
        Some(score) if parts.is_empty() => Ok(score),
        Some(_) => Err(TextError::fault(TextKind::WrongCountOfArguments, at)),
        None if is_known(names, name) => Err(TextError::fault(TextKind::WrongSort, at)),
        None => Err(TextError::fault(TextKind::UnknownName, at)),
    }
}

/// The score that a tree stands for, where an eliminator wants one.
pub fn score_argument<M: SharedNames>(text: &[u8], names: &M, raw: &Raw) -> Result<Score, TextError>
    ensures { Gives (λ score. score) result (score_argument text.now (M.meaning names.now) (raw_tree raw.now)) }
{
    match raw {
        Raw::Word { start, end, parts } => {
            score_word(names, span(text, *start, *end), *start as usize, parts)
        }
        Raw::Number { start, .. } => Err(TextError::fault(TextKind::WrongSort, *start as usize)),
        Raw::List { start, .. } => Err(TextError::fault(TextKind::WrongSort, *start as usize)),
    }
}
