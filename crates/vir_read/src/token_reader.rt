// The tokens of a text, read from the left.
ghost use Rattle.std.specs.Prelude.{◌≡◌, ◌<◌, ◌≤◌, ◌++◌, ◌^◌, length, option_to_list, OnOk, Some};
ghost use Rattle.vir_read.specs.Faults.{Gives};
ghost use Rattle.vir_read.specs.Tokens.{is_blank, is_comment_byte, is_comment_sign, is_digit, is_letter, is_sign};
ghost use Rattle.vir_read.specs.Tokens.{is_word_byte, run, token, tokens_of};
ghost use Rattle.vir_read.specs.Steps.{StepsFrom};

use crate::text_fault::{TextError, TextFault, TextKind};
use crate::token::{Token, TokenKind};
use std::alloc::{AllocError, Global};

// What stands at a place, if it is a token, and the place behind it.
#[derive(Clone, Copy)]
struct Step {
    token: Option<Token>,
    next: usize,
}

// A space, a tab, a carriage return or a line feed.
fn is_blank(b: u8) -> bool
    ensures { result ≡ is_blank b }
{
    b == b' ' || b == b'\t' || b == b'\r' || b == b'\n'
}

fn is_comment_sign(b: u8) -> bool
    ensures { result ≡ is_comment_sign b }
{
    b == b'#'
}

fn is_letter(b: u8) -> bool
    ensures { result ≡ is_letter b }
{
    (b'A' <= b && b <= b'Z') || (b'a' <= b && b <= b'z')
}

fn is_digit(b: u8) -> bool
    ensures { result ≡ is_digit b }
{
    b'0' <= b && b <= b'9'
}

fn is_sign(b: u8) -> bool
    ensures { result ≡ is_sign b }
{
    b == b'(' || b == b')' || b == b'[' || b == b']' || b == b',' || b == b';' || b == b'='
}

// A byte of a word, behind its first letter.
fn is_word_byte(b: u8) -> bool
    ensures { result ≡ is_word_byte b }
{
    is_letter(b) || is_digit(b) || b == b'_' || b == b'-'
}

// How many bytes at the front go on with a word.
fn word_length(bytes: &[u8]) -> usize
    ensures { result ≡ run is_word_byte bytes.now }
{
    bytes.iter().take_while(|b| is_word_byte(**b)).count()
}

// How many bytes at the front go on with a number.
fn number_length(bytes: &[u8]) -> usize
    ensures { result ≡ run is_digit bytes.now }
{
    bytes.iter().take_while(|b| is_digit(**b)).count()
}

// How many bytes at the front go on with a comment.
fn comment_length(bytes: &[u8]) -> usize
    ensures { result ≡ run is_comment_byte bytes.now }
{
    bytes.iter().take_while(|b| **b != b'\n').count()
}

// A token from a place to before another one, and that one.
fn token_step(kind: TokenKind, at: usize, end: usize) -> Step
    requires at { at < 2 ^ 32 }
    requires end { end < 2 ^ 32 }
    ensures token { result.token ≡ Some (token kind at end) }
    ensures next { result.next ≡ end }
{
    Step {
        token: Some(Token {
            kind,
            start: at as u32,
            end: end as u32,
        }),
        next: end,
    }
}

// What begins at a place of the text.
fn step_at(text: &[u8], at: usize) -> Result<Step, TextFault>
    requires at { at < length text.now }
    requires short { length text.now < 2 ^ 32 }
    ensures { StepsFrom at text.now result }
{
    let b = text[at];
    let next = at + 1;
    let rest = &text[next..];
    if is_blank(b) {
        return Ok(Step { token: None, next });
    }
    if is_comment_sign(b) {
        return Ok(Step {
            token: None,
            next: next + comment_length(rest),
        });
    }
    if is_letter(b) {
        Ok(token_step(TokenKind::Word, at, next + word_length(rest)))
    } else if is_digit(b) {
        Ok(token_step(TokenKind::Number, at, next + number_length(rest)))
    } else if is_sign(b) {
        Ok(token_step(TokenKind::Sign, at, next))
    } else {
        Err(TextFault {
            kind: TextKind::BadByte,
            at,
        })
    }
}

fn append(list: &mut Vec<Token>, token: Option<Token>) -> Result<(), AllocError>
    ensures { OnOk result (list.new.items ≡ list.old.items ++ option_to_list token) }
{
    if let Some(token) = token {
        list.push(token)?;
    }
    Ok(())
}

/// The tokens of a text. Blanks and comments, from `#` to the end of the line, only part them. The error is
/// `BadByte` at the first byte that belongs to no token. A text of 2^32 bytes has no room for its tokens.
pub fn tokens(alloc: Global, text: &[u8]) -> Result<Vec<Token>, TextError>
    ensures { Gives (λ list. list.items) result (tokens_of text.now) }
{
    if text.len() > u32::MAX as usize {
        return Err(TextError::Memory);
    }
    let mut list = Vec::new(alloc);
    let mut at = 0;
    while at < text.len() {
        let step = match step_at(text, at) {
            Ok(step) => step,
            Err(fault) => return Err(TextError::Fault(fault)),
        };
        append(&mut list, step.token)?;
        at = step.next;
    }
    Ok(list)
}
