// Tokens one by one: the header, the words that parts begin with, and the end.
ghost use Rattle.std.specs.Prelude.{◌≡◌, ◌+◌, ◌<◌, ◌≤◌, length, drop, IfOk, OnOk};
ghost use Rattle.vir_read.specs.Faults.{Gives};
ghost use Rattle.vir_cert.specs.Certs.{end_of, header_of, is_written, label_of, version_in};

use crate::version::Version;
use vir_read::{TextError, TextKind, Token, front, span, unexpected};

// Whether a token is written so.
fn is_written(text: &[u8], token: Token, wanted: &[u8]) -> bool
    ensures { result ≡ is_written text.now token wanted.now }
{
    span(text, token.start, token.end) == wanted
}

// The word that a part begins with, at an index.
pub(crate) fn read_label(
    text: &[u8],
    list: &[Token],
    at: usize,
    wanted: &[u8],
) -> Result<(), TextError>
    ensures exact { Gives (λ u. (tt, drop (at + 1) list.now)) result (label_of text.now wanted.now (drop at list.now)) }
    ensures within { OnOk result (at < length list.now) }
{
    match front(list, at) {
        None => Err(unexpected(text, list, at)),
        Some(token) => {
            if is_written(text, token, wanted) {
                Ok(())
            } else {
                Err(unexpected(text, list, at))
            }
        }
    }
}

// The version that a token of these names.
fn read_version(text: &[u8], token: Token, list: &[Token]) -> Result<Version, TextError>
    ensures { Gives (λ version. (version, drop 2 list.now)) result (version_in text.now token (drop 2 list.now)) }
{
    if is_written(text, token, "1".as_bytes()) {
        Ok(Version::One)
    } else if is_written(text, token, "2".as_bytes()) {
        Ok(Version::Two)
    } else {
        Err(TextError::fault(TextKind::BadHeader, 0))
    }
}

// The name and the version that a certificate begins with.
pub(crate) fn read_header(text: &[u8], list: &[Token]) -> Result<Version, TextError>
    ensures exact { Gives (λ version. (version, drop 2 list.now)) result (header_of text.now list.now) }
    ensures within { IfOk result (λ version. 2 ≤ length list.now) }
{
    match list {
        [name, version, ..] => {
            if is_written(text, *name, "virage-certificate".as_bytes()) {
                read_version(text, *version, list)
            } else {
                Err(TextError::fault(TextKind::BadHeader, 0))
            }
        }
        _ => Err(TextError::fault(TextKind::BadHeader, 0)),
    }
}

// That the tokens end at an index.
pub(crate) fn read_end(list: &[Token], at: usize) -> Result<(), TextError>
    ensures { Gives (λ u. tt) result (end_of (drop at list.now)) }
{
    match front(list, at) {
        None => Ok(()),
        Some(token) => Err(TextError::fault(TextKind::TrailingText, token.start as usize)),
    }
}
