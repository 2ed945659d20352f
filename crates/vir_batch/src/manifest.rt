// The names that a text lists.
ghost use Rattle.std.specs.Prelude.{◌≡◌, ◌≤◌, [], length};
ghost use Rattle.std.specs.List.{position_or_len};
ghost use Rattle.vir_read.specs.Faults.{Gives};
ghost use Rattle.vir_batch.specs.Manifest.{is_line_feed, lines, manifest_of, with_lines, without_return};

use crate::file_names::FileNames;
use std::alloc::Global;
use vir_read::{TextError, TextKind};

/// How many bytes a manifest may have.
pub const MANIFEST_LIMIT: usize = 1_048_576;

// How many bytes the first line has.
fn line_length(bytes: &[u8]) -> usize
    ensures length { result ≡ position_or_len is_line_feed bytes.now }
    ensures within { result ≤ length bytes.now }
{
    bytes.iter().take_while(|byte| **byte != b'\n').count()
}

// The line without the carriage return at its end.
fn without_return(line: &[u8]) -> &[u8]
    ensures { result.now ≡ without_return line.now }
{
    if line.is_empty() {
        return line;
    }
    let end = line.len() - 1;
    if line[end] == b'\r' {
        &line[..end]
    } else {
        line
    }
}

// The names of a text of any length.
fn read_lines(alloc: Global, text: &[u8]) -> Result<FileNames, TextError>
    ensures { Gives (λ names. names) result (with_lines [] 0 (lines text.now)) }
{
    let mut names = FileNames::new(alloc);
    let mut at = 0;
    while at < text.len() {
        let end = at + line_length(&text[at..]);
        if let Err(error) = names.push_line(alloc, at, without_return(&text[at..end])) {
            return Err(error);
        }
        at = end + 1;
    }
    Ok(names)
}

/// The names of the files that a text lists, or its first fault. A line ends at a line feed or at the end of the text,
/// and each line that isn't empty is a name; a carriage return at its end doesn't belong to it.
///
/// The faults are that the text is longer than `MANIFEST_LIMIT`, at that place; and, in the order of the lines and at
/// the first byte of one, that its bytes aren't UTF-8, or that it is one name more than 10,000.
pub fn read_manifest(alloc: Global, text: &[u8]) -> Result<FileNames, TextError>
    ensures { Gives (λ names. names) result (manifest_of text.now) }
{
    if text.len() > MANIFEST_LIMIT {
        return Err(TextError::fault(TextKind::TextTooLong, MANIFEST_LIMIT));
    }
    read_lines(alloc, text)
}
