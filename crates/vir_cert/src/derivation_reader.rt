// The derivation of a text.
ghost use Rattle.std.specs.Prelude.{List, ◌≡◌, ◌+◌, ◌<◌, ◌≤◌, length, drop, OnOk, IfOk};
ghost use Rattle.vir_read.specs.Faults.{Gives};
ghost use Rattle.vir_rules.specs.Named.{rule_named};
ghost use Rattle.vir_rules.specs.RuleTrees.{RuleTree, rule_tree, rule_trees};
ghost use Rattle.vir_cert.specs.Derivations.{behind_rule, children, derivation_of, derivation_within, name_of, opens};
ghost use Rattle.vir_cert.specs.Derivations.{up_to};
ghost use Rattle.vir_cert.specs.Seen.{rule_seen};

use std::alloc::Global;
use vir_read::{
    Separator, Symbol, TextError, TextKind, Token, front, read_separator, read_symbol, span,
    unexpected,
};
use vir_rules::{Children, Derivation, RuleId};

// How deep a derivation may be nested.
const NESTING_LIMIT: u32 = 256;

// A derivation, and the index of the token behind it.
#[derive(Drop)]
pub(crate) struct DerivationEnd {
    pub derivation: Derivation,
    pub next: usize,
}

// The derivations in parentheses, and the index of the token behind the closing one.
#[derive(Drop)]
struct ChildrenEnd {
    children: Children,
    next: usize,
}

// A rule, and the place of its name.
#[derive(Clone, Copy)]
struct RuleAt {
    rule: RuleId,
    at: usize,
}

// The rule of a name, where it is one of the first so many.
fn rule_up_to(last: usize, name: &[u8]) -> Option<RuleId>
    ensures { result ≡ up_to last (rule_named name.now) }
{
    match RuleId::named(name) {
        None => None,
        Some(rule) => {
            if rule.number() <= last {
                Some(rule)
            } else {
                None
            }
        }
    }
}

// The name of one of the first so many rules, at an index.
fn read_name(text: &[u8], list: &[Token], at: usize, last: usize) -> Result<RuleAt, TextError>
    ensures exact { Gives (λ found. (rule_seen found, drop (at + 1) list.now)) result
        (name_of text.now last (drop at list.now)) }
    ensures within { OnOk result (at < length list.now) }
{
    let token = read_symbol(text, list, at, Symbol::Word)?;
    match rule_up_to(last, span(text, token.start, token.end)) {
        None => Err(TextError::fault(TextKind::UnknownRule, token.start as usize)),
        Some(rule) => Ok(RuleAt {
            rule,
            at: token.start as usize,
        }),
    }
}

// Whether an opening parenthesis stands at an index.
fn opens(text: &[u8], list: &[Token], at: usize) -> bool
    ensures exact { result ≡ opens text.now (drop at list.now) }
{
    match front(list, at) {
        None => false,
        Some(token) => match token.symbol(text) {
            Symbol::OpenParenthesis => true,
            _ => false,
        },
    }
}

// Derivations up to the closing parenthesis, each of at most this nesting.
#[cycle(derivation)]
fn read_children(
    alloc: Global,
    text: &[u8],
    list: &[Token],
    from: usize,
    last: usize,
    room: u32,
) -> Result<ChildrenEnd, TextError>
    requires { from ≤ length list.now }
    ensures children { Gives (λ end. (rule_trees end.children, drop end.next list.now)) result
        (children text.now (derivation_within text.now last room) (length (drop from list.now)) (drop from list.now)) }
    ensures forward { IfOk result (λ end. (from < end.next) × (end.next ≤ length list.now)) }
{
    let mut children = Children::new(alloc);
    let mut at = from;
    for _ in from..list.len() {
        let child = match read_within(alloc, text, list, at, last, room) {
            Ok(child) => child,
            Err(e) => return Err(e),
        };
        let behind = child.next;
        children.push(child.derivation)?;
        match read_separator(text, list, behind, Symbol::CloseParenthesis) {
            Ok(Separator::Comma) => at = behind + 1,
            Ok(Separator::Close) => {
                return Ok(ChildrenEnd {
                    children,
                    next: behind + 1,
                });
            }
            Err(e) => return Err(e),
        }
    }
    Err(unexpected(text, list, at))
}

// What stands behind a rule's name, whose children are of at most this nesting.
#[cycle(derivation)]
fn read_behind(
    alloc: Global,
    text: &[u8],
    list: &[Token],
    rule: RuleId,
    from: usize,
    last: usize,
    room: u32,
) -> Result<DerivationEnd, TextError>
    requires { from ≤ length list.now }
    ensures tree { Gives (λ end. (rule_tree end.derivation, drop end.next list.now)) result
        (behind_rule text.now (derivation_within text.now last room) rule (drop from list.now)) }
    ensures forward { IfOk result (λ end. (from ≤ end.next) × (end.next ≤ length list.now)) }
{
    if !opens(text, list, from) {
        return Ok(DerivationEnd {
            derivation: Derivation {
                rule,
                children: Children::new(alloc),
            },
            next: from,
        });
    }
    match read_children(alloc, text, list, from + 1, last, room) {
        Ok(ChildrenEnd { children, next }) => Ok(DerivationEnd {
            derivation: Derivation { rule, children },
            next,
        }),
        Err(e) => Err(e),
    }
}

// A derivation of at most this nesting.
#[cycle(derivation)]
fn read_within(
    alloc: Global,
    text: &[u8],
    list: &[Token],
    from: usize,
    last: usize,
    room: u32,
) -> Result<DerivationEnd, TextError>
    ensures tree { Gives (λ end. (rule_tree end.derivation, drop end.next list.now)) result
        (derivation_within text.now last room (drop from list.now)) }
    ensures forward { IfOk result (λ end. (from < end.next) × (end.next ≤ length list.now)) }
{
    let found = match read_name(text, list, from, last) {
        Ok(found) => found,
        Err(e) => return Err(e),
    };
    if room == 0 {
        return Err(TextError::fault(TextKind::TooDeep, found.at));
    }
    read_behind(alloc, text, list, found.rule, from + 1, last, room - 1)
}

// A derivation by the first so many rules, from the token at index `from` on. The error is the first in the text of
// `Unexpected` at a token that the grammar doesn't allow, `UnknownRule` at a word that is none of these rules, and
// `TooDeep` at a rule of a nesting past the limit.
pub(crate) fn read_derivation(
    alloc: Global,
    text: &[u8],
    list: &[Token],
    from: usize,
    last: usize,
) -> Result<DerivationEnd, TextError>
    ensures tree { Gives (λ end. (rule_tree end.derivation, drop end.next list.now)) result
        (derivation_of text.now last (drop from list.now)) }
    ensures forward { IfOk result (λ end. (from < end.next) × (end.next ≤ length list.now)) }
{
    read_within(alloc, text, list, from, last, NESTING_LIMIT)
}
