// Which lists of instructions are code.
ghost use Rattle.std.specs.Prelude.{◌≡◌, ◌+◌, ◌≤◌, ◌↔◌, ℕ, IsTrue, [], ◌∷◌, length, MatchOption, SomeIff};
ghost use Rattle.vir_term.specs.Limits.{IsCount};
ghost use Rattle.vir_term.specs.Tree.{End, number_of};
ghost use Rattle.vir_code.specs.Valid.{IsValid};
ghost use Rattle.vir_code.specs.Code.{test_of};
ghost use Rattle.vir_code.specs.Places.{HasAt, IsAnswer, between, before_body};
ghost use Rattle.vir_code.specs.declared.instr.Instr.TheVariants.{StartLoop, LoopBack};

use crate::code::{CODE_LIMIT, Code};
use crate::instr::Instr;
use vir_term::{NESTING_LIMIT, SIZE_LIMIT, is_count};

/// The list as code, where it is the code of a term within the limits.
pub fn validate(list: Vec<Instr>) -> Option<Code>
    ensures { SomeIff result (IsValid list.items) list.items }
{
    if list.len() > CODE_LIMIT {
        return None;
    }
    let piece = term_before(&list, list.len(), SIZE_LIMIT, NESTING_LIMIT)?;
    if piece.start == 0 {
        Some(Code { list })
    } else {
        None
    }
}

// The code of a term that was found in a list: where it begins, and what its term leaves of the room.
#[derive(Clone, Copy, Drop)]
struct Piece {
    start: usize,
    room: u32,
}

// The code of a term that ends before a position, where the term fits into the room, is nested in at
// most so many levels, and its numbers are in range.
fn term_before(list: &[Instr], end: usize, room: u32, levels: u32) -> Option<Piece>
    requires { end ≤ length list.now }
    ensures { IsAnswer list.now end room levels result }
{
    if end == 0 || room == 0 || levels == 0 {
        return None;
    }
    let last = end - 1;
    let room = room - 1;
    let levels = levels - 1;
    match &list[last] {
        Instr::Call(leaf) => leaf.in_range().then_some(Piece { start: last, room }),
        Instr::Revise => term_before(list, last, room, levels),
        Instr::JoinSeq => {
            let second = term_before(list, last, room, levels)?;
            let middle = domain_kept_before(list, second.start)?;
            term_before(list, middle, second.room, levels)
        }
        Instr::JoinMax => {
            let second = term_before(list, last, room, levels)?;
            term_before(list, second.start, second.room, levels)
        }
        Instr::EndLoop => {
            let test = loop_back_before(list, last)?;
            let body = term_before(list, last - 1, room, levels)?;
            let start = loop_start_before(list, body.start, last)?;
            if test != start + 1 {
                return None;
            }
            Some(Piece {
                start,
                room: body.room,
            })
        }
        _ => None,
    }
}

// Where the two instructions between the parts of a sequence begin, if they end here.
fn domain_kept_before(list: &[Instr], end: usize) -> Option<usize>
    requires { end ≤ length list.now }
    ensures { MatchOption result ((at : ℕ) → at + 2 ≡ end → HasAt list.now at between → ⊥)
        (λ at. (at + 2 ≡ end) × HasAt list.now at between) }
{
    if end < 2 {
        return None;
    }
    match (&list[end - 2], &list[end - 1]) {
        (Instr::KeepDomain, Instr::FetchDomain) => Some(end - 2),
        _ => None,
    }
}

// The target of the jump back that ends here, if there is one.
fn loop_back_before(list: &[Instr], end: usize) -> Option<usize>
    requires { end ≤ length list.now }
    ensures { MatchOption result ((at test : ℕ) → at + 1 ≡ end → HasAt list.now at (LoopBack test ∷ []) → ⊥)
        (λ test. (at : ℕ) × (at + 1 ≡ end) × HasAt list.now at (LoopBack test ∷ [])) }
{
    if end < 1 {
        return None;
    }
    match &list[end - 1] {
        Instr::LoopBack { start } => Some(*start),
        _ => None,
    }
}

// Where the two instructions before the body of a loop begin, if they end here, lead to this exit,
// and test for a number within the limits.
fn loop_start_before(list: &[Instr], end: usize, exit: usize) -> Option<usize>
    requires { end ≤ length list.now }
    ensures { MatchOption result
        ((at : ℕ) (k : End) → at + 2 ≡ end → HasAt list.now at (before_body k exit) → IsCount (number_of k) → ⊥)
        (λ at. (k : End) × (at + 2 ≡ end) × HasAt list.now at (before_body k exit) × IsCount (number_of k)) }
{
    if end < 2 {
        return None;
    }
    if !is_start(&list[end - 2]) {
        return None;
    }
    let test = loop_test(&list[end - 1])?;
    if test.exit == exit && is_count(test.k) {
        Some(end - 2)
    } else {
        None
    }
}

// Whether the instruction starts a loop.
fn is_start(instr: &Instr) -> bool
    ensures { IsTrue result ↔ (instr.now ≡ StartLoop) }
{
    matches!(instr, Instr::StartLoop)
}

// What a loop's test tests for, and where it leads.
#[derive(Clone, Copy, Drop)]
struct Test {
    k: u32,
    exit: usize,
}

// The test of a loop, of either kind, if the instruction is one.
fn loop_test(instr: &Instr) -> Option<Test>
    ensures { MatchOption result ((k : End) (exit : ℕ) → instr.now ≡ test_of k exit → ⊥)
        (λ test. (k : End) × (instr.now ≡ test_of k test.exit) × (number_of k ≡ test.k)) }
{
    match instr {
        Instr::LoopTest { k, exit } => Some(Test { k: *k, exit: *exit }),
        Instr::UntilTest { k, exit } => Some(Test { k: *k, exit: *exit }),
        _ => None,
    }
}
