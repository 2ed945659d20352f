// Trees of a list of tokens, read from the left.
ghost use Rattle.std.specs.Prelude.{◌≡◌, ◌+◌, ◌<◌, ◌≤◌, length, drop, slice_get, option_map, Some, IfOk, OnOk};
ghost use Rattle.std.specs.Bool.{MatchBool, OnTrue};
ghost use Rattle.vir_read.specs.declared.symbol.Symbol.TheVariants.{OpenBracket};
ghost use Rattle.vir_read.specs.declared.text_fault.TextKind.TheVariants.{TooDeep};
ghost use Rattle.vir_read.specs.Faults.{Gives, fault};
ghost use Rattle.vir_read.specs.Symbols.{symbol};
ghost use Rattle.vir_read.specs.RawTrees.{listed, raw_tree};
ghost use Rattle.vir_read.specs.Grammar.{behind_word, in_brackets, inside, tree_at, tree_of, tree_within};
ghost use Rattle.vir_read.specs.Grammar.{close_of, member_of, members, numeral_of, separator_of};

use crate::next_token::{front, read_symbol, unexpected};
use crate::raw::{Raw, RawList};
use crate::symbol::Symbol;
use crate::text_fault::{TextError, TextKind};
use crate::token::Token;
use std::alloc::Global;

/// How many signs `(` and `[` of a tree may be unclosed at a time.
pub const UNCLOSED_LIMIT: u32 = 80;

/// A tree, and the index of the token behind it.
#[derive(Debug, Drop)]
pub struct RawEnd {
    pub raw: Raw,
    pub next: usize,
}

// What stands in parentheses or brackets, and the index of the token behind the closing sign.
#[derive(Drop)]
struct ListEnd {
    trees: RawList,
    next: usize,
}

// What the members of a list are: trees in parentheses, in which so many signs may be unclosed, or numbers in brackets.
#[derive(Clone, Copy)]
enum Members {
    Trees { room: u32 },
    Numbers,
}

impl Members {
    // The sign that closes the list.
    fn close(self) -> Symbol
        ensures { result ≡ close_of self }
    {
        match self {
            Members::Trees { .. } => Symbol::CloseParenthesis,
            Members::Numbers => Symbol::CloseBracket,
        }
    }
}

/// What stands behind a member of a list.
#[derive(Clone, Copy)]
pub enum Separator {
    Comma,
    Close,
}

// Whether the token at an index is this to the grammar. None is, where the tokens end.
fn is_symbol(text: &[u8], list: &[Token], at: usize, wanted: Symbol) -> bool
    ensures symbol { MatchBool result (option_map (λ t. symbol text.now t) (slice_get list.now at) ≡ Some wanted)
        (¬ (option_map (λ t. symbol text.now t) (slice_get list.now at) ≡ Some wanted)) }
    ensures within { OnTrue result (at < length list.now) }
{
    match list.get(at) {
        Some(token) => token.symbol(text) == wanted,
        None => false,
    }
}

// One more sign would be unclosed than may be.
fn too_deep(sign: Token) -> TextError
    ensures { result ≡ TextError.Fault (fault TooDeep sign.start) }
{
    TextError::fault(TextKind::TooDeep, sign.start as usize)
}

/// What stands behind a member of a list that this sign closes, at an index.
pub fn read_separator(
    text: &[u8],
    list: &[Token],
    at: usize,
    close: Symbol,
) -> Result<Separator, TextError>
    ensures exact { Gives (λ s. (s, drop (at + 1) list.now)) result (separator_of text.now close (drop at list.now)) }
    ensures within { OnOk result (at < length list.now) }
{
    let Some(token) = front(list, at) else {
        return Err(unexpected(text, list, at));
    };
    let symbol = token.symbol(text);
    if symbol.is(Symbol::Comma) {
        Ok(Separator::Comma)
    } else if symbol.is(close) {
        Ok(Separator::Close)
    } else {
        Err(unexpected(text, list, at))
    }
}

// A number at an index.
fn read_number(text: &[u8], list: &[Token], at: usize) -> Result<RawEnd, TextError>
    ensures tree { Gives (λ end. (raw_tree end.raw, drop end.next list.now)) result
        (numeral_of text.now (drop at list.now)) }
    ensures forward { IfOk result (λ end. (at < end.next) × (end.next ≤ length list.now)) }
{
    let Token { start, end, .. } = read_symbol(text, list, at, Symbol::Number)?;
    Ok(RawEnd {
        raw: Raw::Number { start, end },
        next: at + 1,
    })
}

// A member of a list at an index.
#[cycle(tree)]
fn read_member(
    alloc: Global,
    text: &[u8],
    list: &[Token],
    at: usize,
    kind: Members,
) -> Result<RawEnd, TextError>
    requires { at ≤ length list.now }
    ensures tree { Gives (λ end. (raw_tree end.raw, drop end.next list.now)) result
        (member_of text.now kind (drop at list.now)) }
    ensures forward { IfOk result (λ end. (at < end.next) × (end.next ≤ length list.now)) }
{
    match kind {
        Members::Trees { room } => read_tree(alloc, text, list, at, room),
        Members::Numbers => read_number(text, list, at),
    }
}

// Members of a list up to the closing sign.
#[cycle(tree)]
fn read_members(
    alloc: Global,
    text: &[u8],
    list: &[Token],
    from: usize,
    kind: Members,
) -> Result<ListEnd, TextError>
    requires { from ≤ length list.now }
    ensures members { Gives (λ end. (listed end.trees, drop end.next list.now)) result
        (members text.now (close_of kind) (member_of text.now kind) (length (drop from list.now))
        (drop from list.now)) }
    ensures forward { IfOk result (λ end. (from < end.next) × (end.next ≤ length list.now)) }
{
    let mut trees = RawList::new(alloc);
    let mut at = from;
    for _ in from..list.len() {
        let member = match read_member(alloc, text, list, at, kind) {
            Ok(member) => member,
            Err(e) => return Err(e),
        };
        let behind = member.next;
        trees.push(member.raw)?;
        match read_separator(text, list, behind, kind.close()) {
            Ok(Separator::Comma) => at = behind + 1,
            Ok(Separator::Close) => {
                trees.shrink();
                return Ok(ListEnd {
                    trees,
                    next: behind + 1,
                });
            }
            Err(e) => return Err(e),
        }
    }
    Err(unexpected(text, list, at))
}

// A word, and the trees in the parentheses behind it, if there are any.
#[cycle(tree)]
fn read_word(
    alloc: Global,
    text: &[u8],
    list: &[Token],
    word: Token,
    from: usize,
    room: u32,
) -> Result<RawEnd, TextError>
    requires { from ≤ length list.now }
    ensures tree { Gives (λ end. (raw_tree end.raw, drop end.next list.now)) result
        (behind_word text.now (inside text.now room) word (drop from list.now)) }
    ensures forward { IfOk result (λ end. (from ≤ end.next) × (end.next ≤ length list.now)) }
{
    let Token { start, end, .. } = word;
    if !is_symbol(text, list, from, Symbol::OpenParenthesis) {
        return Ok(RawEnd {
            raw: Raw::Word {
                start,
                end,
                parts: RawList::new(alloc),
            },
            next: from,
        });
    }
    if room == 0 {
        return Err(too_deep(list[from]));
    }
    match read_members(
        alloc,
        text,
        list,
        from + 1,
        Members::Trees { room: room - 1 },
    ) {
        Ok(ListEnd { trees, next }) => Ok(RawEnd {
            raw: Raw::Word {
                start,
                end,
                parts: trees,
            },
            next,
        }),
        Err(e) => Err(e),
    }
}

// What stands behind an opening bracket.
#[cycle(tree)]
fn read_brackets(
    alloc: Global,
    text: &[u8],
    list: &[Token],
    from: usize,
) -> Result<ListEnd, TextError>
    requires { from ≤ length list.now }
    ensures members { Gives (λ end. (listed end.trees, drop end.next list.now)) result
        (in_brackets text.now (drop from list.now)) }
    ensures forward { IfOk result (λ end. (from < end.next) × (end.next ≤ length list.now)) }
{
    if is_symbol(text, list, from, Symbol::CloseBracket) {
        Ok(ListEnd {
            trees: RawList::new(alloc),
            next: from + 1,
        })
    } else {
        read_members(alloc, text, list, from, Members::Numbers)
    }
}

// A list in brackets, whose opening sign is the one before the index.
#[cycle(tree)]
fn read_list(
    alloc: Global,
    text: &[u8],
    list: &[Token],
    sign: Token,
    from: usize,
    room: u32,
) -> Result<RawEnd, TextError>
    requires { from ≤ length list.now }
    ensures tree { Gives (λ end. (raw_tree end.raw, drop end.next list.now)) result
        (tree_at text.now (inside text.now room) sign (drop from list.now) OpenBracket) }
    ensures forward { IfOk result (λ end. (from ≤ end.next) × (end.next ≤ length list.now)) }
{
    if room == 0 {
        return Err(too_deep(sign));
    }
    match read_brackets(alloc, text, list, from) {
        Ok(ListEnd { trees, next }) => Ok(RawEnd {
            raw: Raw::List {
                start: sign.start,
                members: trees,
            },
            next,
        }),
        Err(e) => Err(e),
    }
}

// A tree in which so many signs may be unclosed at a time.
#[cycle(tree)]
fn read_tree(
    alloc: Global,
    text: &[u8],
    list: &[Token],
    from: usize,
    room: u32,
) -> Result<RawEnd, TextError>
    requires { from ≤ length list.now }
    ensures tree { Gives (λ end. (raw_tree end.raw, drop end.next list.now)) result
        (tree_within text.now room (drop from list.now)) }
    ensures forward { IfOk result (λ end. (from < end.next) × (end.next ≤ length list.now)) }
{
    if from == list.len() {
        return Err(unexpected(text, list, from));
    }
    let token = list[from];
    match token.symbol(text) {
        Symbol::Word => read_word(alloc, text, list, token, from + 1, room),
        Symbol::Number => Ok(RawEnd {
            raw: Raw::Number {
                start: token.start,
                end: token.end,
            },
            next: from + 1,
        }),
        Symbol::OpenBracket => read_list(alloc, text, list, token, from + 1, room),
        _ => Err(unexpected(text, list, from)),
    }
}

/// One tree from the token at index `from` on. The error is `Unexpected` at the first token that the grammar
/// doesn't allow, and at the text's length where the tokens end too early; `TooDeep` at the sign that is one
/// more than `UNCLOSED_LIMIT` unclosed ones.
pub fn read_raw(
    alloc: Global,
    text: &[u8],
    list: &[Token],
    from: usize,
) -> Result<RawEnd, TextError>
    requires { from ≤ length list.now }
    ensures tree { Gives (λ end. (raw_tree end.raw, drop end.next list.now)) result
        (tree_of text.now (drop from list.now)) }
    ensures forward { IfOk result (λ end. (from < end.next) × (end.next ≤ length list.now)) }
{
    read_tree(alloc, text, list, from, UNCLOSED_LIMIT)
}
