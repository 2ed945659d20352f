// Where a tree has a word that the version lacks.
ghost use Rattle.std.specs.Prelude.{◌≡◌};
ghost use Rattle.vir_read.specs.Faults.{Gives};
ghost use Rattle.vir_read.specs.RawTrees.{gathered, listed, raw_tree};
ghost use Rattle.vir_cert.specs.Untils.{until_at, until_in};
ghost use Rattle.vir_cert.specs.Versions.{known_words};

use crate::version::Version;
use vir_read::{Raw, RawList, TextError, TextKind, span};

// Where the word `until` stands first in these trees.
#[cycle(until)]
fn until_in(text: &[u8], parts: &RawList) -> Option<usize>
    ensures { result ≡ until_in text.now (gathered (listed parts.now)) }
{
    for i in 0..parts.len() {
        let Some(part) = parts.at(i) else {
            unreachable!()
        };
        if let Some(at) = until_at(text, part) {
            return Some(at);
        }
    }
    None
}

// Where it stands first in a tree.
#[cycle(until)]
fn until_at(text: &[u8], raw: &Raw) -> Option<usize>
    ensures { result ≡ until_at text.now (raw_tree raw.now) }
{
    match raw {
        Raw::Number { .. } => None,
        Raw::List { members, .. } => until_in(text, members),
        Raw::Word { start, end, parts } => {
            if span(text, *start, *end) == "until".as_bytes() {
                Some(*start as usize)
            } else {
                until_in(text, parts)
            }
        }
    }
}

// That the version has each word of the tree that is new in version 2.
pub(crate) fn judge_words(version: Version, text: &[u8], raw: &Raw) -> Result<(), TextError>
    ensures { Gives (λ u. tt) result (known_words version text.now (raw_tree raw.now)) }
{
    match version {
        Version::Two => Ok(()),
        Version::One => match until_at(text, raw) {
            None => Ok(()),
            Some(at) => Err(TextError::fault(TextKind::UnknownName, at)),
        },
    }
}
