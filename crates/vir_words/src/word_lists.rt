// Lists as words of the command line.
ghost use Rattle.std.specs.Prelude.{ℕ, ◌≡◌, ◌<◌, ◌∷◌, List, Option, IfOk, option_map};
ghost use Rattle.std.specs.Option.{option_copied};
ghost use Rattle.vir_words.specs.WordLeaves.{leaf_of, leaves_of};
ghost use Rattle.vir_words.specs.WordLists.{list_of, parts, parts_behind};
ghost use Rattle.vir_words.specs.WordNumbers.{plain_number};
ghost use Rattle.vir_words.specs.WordProps.{prop_of, props_of};
ghost use Rattle.vir_words.specs.WordWeights.{weights_of};

use crate::word_leaf::word_leaf;
use crate::word_number::plain_number;
use crate::word_prop::word_prop;
use std::alloc::{AllocError, Global};
use vir_positional::Weights;
use vir_term::{Leaf, Prop};

// How many properties may be wanted of a rule.
const PROPS_LIMIT: usize = 32;

// How many modules a rule may be composed of.
const LEAVES_LIMIT: usize = 64;

// How many weights there may be.
const WEIGHTS_LIMIT: usize = 1_024;

// The greatest weight.
const WEIGHT_LIMIT: u64 = 1_000_000;

// What a part of a word is read as.
trait Part: Drop {
    // What the part is, where it is something.
    ghost part_of: { List ℕ → Option Self };

    // The same, read.
    fn read_part(alloc: Global, word: &str) -> Result<Option<Self>, AllocError>
        ensures { IfOk result (λ part. part ≡ part_of word.now) };
}

impl Part for Prop {
    ghost part_of = { prop_of };

    fn read_part(_alloc: Global, word: &str) -> Result<Option<Prop>, AllocError> {
        Ok(word_prop(word))
    }
}

impl Part for Leaf {
    ghost part_of = { leaf_of };

    fn read_part(alloc: Global, word: &str) -> Result<Option<Leaf>, AllocError> {
        word_leaf(alloc, word)
    }
}

// A weight.
impl Part for u64 {
    ghost part_of = { plain_number 1000000 };

    fn read_part(_alloc: Global, word: &str) -> Result<Option<u64>, AllocError> {
        Ok(plain_number(word, WEIGHT_LIMIT))
    }
}

// The first part of a word, and what stands behind its sign, where one ends it.
fn cut(word: &str, sign: char) -> (&str, Option<&str>)
    requires { sign < 128 }
    ensures { parts sign word.now ≡ result.0.now ∷ parts_behind sign (option_copied result.1) }
{
    match word.split_once(sign) {
        Some((first, behind)) => (first, Some(behind)),
        None => (word, None),
    }
}

// What the parts of a word are, where they are at most so many and each is something.
fn read_list<P: Part>(
    alloc: Global,
    word: &str,
    sign: char,
    most: usize,
) -> Result<Option<Vec<P>>, AllocError>
    requires { sign < 128 }
    ensures { IfOk result (λ found. option_map (λ list. list.items) found ≡ list_of sign most P.part_of word.now) }
{
    let mut list = Vec::new(alloc);
    let mut rest = word;
    for _ in 0..most {
        let (first, behind) = cut(rest, sign);
        match P::read_part(alloc, first) {
            Ok(Some(part)) => list.push(part)?,
            Ok(None) => return Ok(None),
            Err(e) => return Err(e),
        }
        match behind {
            Some(more) => rest = more,
            None => return Ok(Some(list)),
        }
    }
    Ok(None)
}

/// The properties of a word that lists them with commas.
#[tactic(auto, unfolding(crate::specs::WordProps::props_of))]
pub fn word_props(alloc: Global, word: &str) -> Result<Option<Vec<Prop>>, AllocError>
    ensures { IfOk result (λ found. option_map (λ list. list.items) found ≡ props_of word.now) }
{
    read_list(alloc, word, ',', PROPS_LIMIT)
}

/// The modules of a word that lists them with semicolons.
#[tactic(auto, unfolding(crate::specs::WordLeaves::leaves_of))]
pub fn word_leaves(alloc: Global, word: &str) -> Result<Option<Vec<Leaf>>, AllocError>
    ensures { IfOk result (λ found. option_map (λ list. list.items) found ≡ leaves_of word.now) }
{
    read_list(alloc, word, ';', LEAVES_LIMIT)
}

/// The weights of a word that lists them with commas.
#[tactic(auto, unfolding(crate::specs::WordWeights::weights_of))]
pub fn word_weights(alloc: Global, word: &str) -> Result<Option<Weights>, AllocError>
    ensures { IfOk result (λ found. found ≡ weights_of word.now) }
{
    match read_list(alloc, word, ',', WEIGHTS_LIMIT) {
        Ok(Some(list)) => Ok(Weights::of(list)),
        Ok(None) => Ok(None),
        Err(e) => Err(e),
    }
}
