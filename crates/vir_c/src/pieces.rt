// The words and the files that stand one behind another in bytes of the caller's.
ghost use Rattle.std.specs.Prelude.{◌≡◌, [], ◌∷◌, ◌++◌, map, string_bytes, take, drop, IfOk, OnOk};
ghost use Rattle.std.specs.Prelude.{ℕ, List, All, Err};
ghost use Rattle.std.specs.Str.{IsUtf8};
ghost use Rattle.vir_c.specs.declared.pieces.Unread.TheVariants.{NotText};
ghost use Rattle.vir_c.specs.Pieces.{files_of, fresh_shelf, pieces};

use crate::FileSizes;
use std::alloc::{AllocError, Global};
use std::str;
use vir_outside::MemoryShelf;

/// Why what is handed in is not read.
#[derive(Clone, Copy, Debug, PartialEq, Eq)]
pub enum Unread {
    /// A word or a name is no text.
    NotText,
    /// Memory is wanting.
    Memory,
}

impl From<AllocError> for Unread {
    fn from(_error: AllocError) -> Unread {
        Unread::Memory
    }
}

// The front of so many bytes, or all where there are fewer, and the rest.
fn cut(bytes: &[u8], size: usize) -> (&[u8], &[u8])
    ensures front { result.0.now ≡ take size bytes.now }
    ensures rest { result.1.now ≡ drop size bytes.now }
{
    bytes.split_at(size.min(bytes.len()))
}

// Appends a word.
fn push_word(alloc: Global, words: &mut Vec<String>, word: &str) -> Result<(), AllocError>
    ensures { OnOk result
        (map string_bytes words.new.items ≡ map string_bytes words.old.items ++ word.now ∷ []) }
{
    words.push(word.to_string(alloc)?)?;
    Ok(())
}

/// The words of these sizes.
#[tactic(auto, using(crate::proofs::PieceLemmas::is_no_text))]
pub fn words_of(alloc: Global, sizes: &[usize], bytes: &[u8]) -> Result<Vec<String>, Unread>
    ensures words { IfOk result (λ words. map string_bytes words.items ≡ pieces sizes.now bytes.now) }
    ensures not_text { result ≡ Err NotText → ¬ (All IsUtf8 (pieces sizes.now bytes.now)) }
{
    let mut words = Vec::new(alloc);
    let mut rest = bytes;
    for size in sizes {
        let (word, behind) = cut(rest, *size);
        let Ok(word) = str::from_utf8(word) else {
            return Err(Unread::NotText);
        };
        if push_word(alloc, &mut words, word).is_err() {
            return Err(Unread::Memory);
        }
        rest = behind;
    }
    Ok(words)
}

/// A shelf of the files of these sizes.
pub fn shelf_of(alloc: Global, sizes: &[FileSizes], bytes: &[u8]) -> Result<MemoryShelf, Unread>
    ensures shelf { IfOk result (λ shelf. shelf ≡ fresh_shelf (files_of sizes.now bytes.now)) }
    ensures not_text { result ≡ Err NotText
        → ¬ (All (λ (file : List ℕ × List ℕ). IsUtf8 file.0) (files_of sizes.now bytes.now)) }
{
    let mut shelf = MemoryShelf::new(alloc);
    let mut rest = bytes;
    for size in sizes {
        let (name, behind) = cut(rest, size.name);
        let (content, behind) = cut(behind, size.content);
        let Ok(name) = str::from_utf8(name) else {
            return Err(Unread::NotText);
        };
        if shelf.put(name, content).is_err() {
            return Err(Unread::Memory);
        }
        rest = behind;
    }
    Ok(shelf)
}
