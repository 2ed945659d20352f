// The words of the command line, read.
ghost use Rattle.std.specs.Prelude.{◌≡◌, [], ◌∷◌, IfOk, IfSome, IsTrue, OnErr, Some, option_map};
ghost use Rattle.vir_words.specs.Command.{IsInRange, are_listed, command_in, command_of_five, command_of_one};
ghost use Rattle.vir_words.specs.Command.{command_of_three, command_of_two, command_seen, drill_words, is_kind};
ghost use Rattle.vir_words.specs.Command.{is_listed, is_size, position_of, prove_of, synth_of, synth_words};
ghost use Rattle.vir_words.specs.WordLeaves.{default_leaves, leaves_of};
ghost use Rattle.vir_words.specs.WordProps.{prop_of, props_of};
ghost use Rattle.vir_words.specs.WordWeights.{elimination_of, weights_of};

use crate::command::{Command, ProfileWork, RuleProfileWork, RuleWork};
use crate::default_leaves::default_leaves;
use crate::refutation::{read_refute, read_refute_pair};
use crate::word_lists::{word_leaves, word_props, word_weights};
use crate::word_number::word_number;
use crate::word_prop::word_prop;
use std::alloc::{AllocError, Global};
use vir_mean::Elimination;
use vir_term::Leaf;

// The greatest size of a rule that is searched for.
const SIZE_LIMIT: u64 = 15;

// The greatest seed of a generated profile.
const SEED_LIMIT: u64 = 18_446_744_073_709_551_615;

// The most lines of a generated profile.
const LINES_LIMIT: u64 = 100_000;

// The greatest number of alternatives of a generated profile.
const ALTERNATIVES_LIMIT: u64 = 128;

// The command `drill` with the numbers that these words are, where each is one of its range.
fn read_drill<'a>(seed: &str, lines: &str, alternatives: &str) -> Option<Command<'a>>
    ensures { option_map command_seen result ≡ drill_words seed.now lines.now alternatives.now }
{
    let seed = word_number(seed, 0, SEED_LIMIT)?;
    let lines = word_number(lines, 1, LINES_LIMIT)?;
    let alternatives = word_number(alternatives, 1, ALTERNATIVES_LIMIT)?;
    Some(Command::Drill {
        seed,
        lines: lines as u32,
        alternatives: alternatives as u16,
    })
}

// The command `prove` of the property that this word is, where it is one.
fn read_prove<'a>(rule: &'a str, prop: &str) -> Option<Command<'a>>
    ensures { option_map command_seen result ≡ prove_of rule.now (prop_of prop.now) }
{
    let prop = word_prop(prop)?;
    Some(Command::OnRule {
        rule,
        work: RuleWork::Prove { prop },
    })
}

// The command `synth` of this size, of these modules, and of the properties that the word is.
fn read_synth<'a>(
    alloc: Global,
    size: u32,
    props: &str,
    leaves: Vec<Leaf>,
) -> Result<Option<Command<'a>>, AllocError>
    ensures { IfOk result (λ found. option_map command_seen found
        ≡ synth_of (Some size) (props_of props.now) (Some leaves.items)) }
{
    match word_props(alloc, props) {
        Ok(Some(props)) => Ok(Some(Command::Synth {
            size,
            props,
            leaves,
        })),
        Ok(None) => Ok(None),
        Err(e) => Err(e),
    }
}

// The command `synth` of the size and the properties that these words are, of the modules that are taken where no word
// names any.
fn read_synth_of_defaults<'a>(
    alloc: Global,
    size: &str,
    props: &str,
) -> Result<Option<Command<'a>>, AllocError>
    ensures command { IfOk result (λ found. option_map command_seen found
        ≡ synth_words size.now props.now (Some default_leaves)) }
    ensures memory { OnErr result (IsTrue (is_size size.now)) }
{
    match word_number(size, 1, SIZE_LIMIT) {
        None => Ok(None),
        Some(size) => {
            let leaves = default_leaves(alloc)?;
            read_synth(alloc, size as u32, props, leaves)
        }
    }
}

// The command `synth` of the size, the properties and the modules that these words are.
fn read_synth_of<'a>(
    alloc: Global,
    size: &str,
    props: &str,
    leaves: &str,
) -> Result<Option<Command<'a>>, AllocError>
    ensures command { IfOk result (λ found. option_map command_seen found
        ≡ synth_words size.now props.now (leaves_of leaves.now)) }
    ensures memory { OnErr result (IsTrue (is_size size.now)) }
{
    match word_number(size, 1, SIZE_LIMIT) {
        None => Ok(None),
        Some(size) => match word_leaves(alloc, leaves) {
            Ok(Some(leaves)) => read_synth(alloc, size as u32, props, leaves),
            Ok(None) => Ok(None),
            Err(e) => Err(e),
        },
    }
}

// The eliminator of this name, where there is one.
fn read_elimination(kind: &str) -> Option<Elimination>
    ensures { result ≡ elimination_of kind.now }
{
    match kind {
        "max" => Some(Elimination::Max),
        "min" => Some(Elimination::Min),
        "below" => Some(Elimination::Below),
        "upto" => Some(Elimination::Upto),
        _ => None,
    }
}

// The command `position` of the weights and the eliminator that these words are.
fn read_position<'a>(
    alloc: Global,
    weights: &str,
    kind: &str,
    profile: &'a str,
) -> Result<Option<Command<'a>>, AllocError>
    ensures command { IfOk result (λ found. option_map command_seen found ≡ position_of (weights_of weights.now)
        (elimination_of kind.now) profile.now) }
    ensures memory { OnErr result (IsTrue (is_kind kind.now)) }
{
    let Some(kind) = read_elimination(kind) else {
        return Ok(None);
    };
    match word_weights(alloc, weights) {
        Ok(Some(weights)) => Ok(Some(Command::OnProfile {
            profile,
            work: ProfileWork::Position { weights, kind },
        })),
        Ok(None) => Ok(None),
        Err(e) => Err(e),
    }
}

// The command of this name on one word, where there is one.
fn read_one<'a>(name: &str, first: &'a str) -> Option<Command<'a>>
    ensures { option_map command_seen result ≡ command_of_one name.now first.now }
{
    match name {
        "check" => Some(Command::Check { certificate: first }),
        "listing" => Some(Command::OnRule {
            rule: first,
            work: RuleWork::Listing,
        }),
        "simplify" => Some(Command::OnRule {
            rule: first,
            work: RuleWork::Simplify,
        }),
        "pairs" => Some(Command::OnProfile {
            profile: first,
            work: ProfileWork::Pairs,
        }),
        _ => None,
    }
}

// The command of this name on two words.
fn read_two<'a>(
    alloc: Global,
    name: &str,
    first: &'a str,
    second: &'a str,
) -> Result<Option<Command<'a>>, AllocError>
    ensures command { IfOk result (λ found.
        option_map command_seen found ≡ command_of_two name.now first.now second.now) }
    ensures memory { OnErr result (IsTrue (is_listed (name.now ∷ first.now ∷ second.now ∷ []))) }
{
    match name {
        "count" => Ok(Some(Command::OnRuleAndProfile {
            rule: first,
            profile: second,
            work: RuleProfileWork::Count,
        })),
        "report" => Ok(Some(Command::OnRuleAndProfile {
            rule: first,
            profile: second,
            work: RuleProfileWork::Report,
        })),
        "prove" => Ok(read_prove(first, second)),
        "synth" => read_synth_of_defaults(alloc, first, second),
        "batch" => Ok(Some(Command::Batch {
            rule: first,
            manifest: second,
        })),
        "explain" => Ok(Some(Command::OnRuleAndProfile {
            rule: first,
            profile: second,
            work: RuleProfileWork::Explain,
        })),
        _ => Ok(None),
    }
}

// The command of this name on three words.
fn read_three<'a>(
    alloc: Global,
    name: &str,
    first: &'a str,
    second: &'a str,
    third: &'a str,
) -> Result<Option<Command<'a>>, AllocError>
    ensures command { IfOk result (λ found. option_map command_seen found
        ≡ command_of_three name.now first.now second.now third.now) }
    ensures memory { OnErr result (IsTrue (is_listed (name.now ∷ first.now ∷ second.now ∷ third.now ∷ []))) }
{
    match name {
        "synth" => read_synth_of(alloc, first, second, third),
        "drill" => Ok(read_drill(first, second, third)),
        "position" => read_position(alloc, first, second, third),
        "refute" => Ok(read_refute(first, second, third)),
        _ => Ok(None),
    }
}

// The command of this name on five words, where there is one.
fn read_five<'a>(
    name: &str,
    first: &'a str,
    second: &str,
    third: &'a str,
    fourth: &'a str,
    fifth: &str,
) -> Option<Command<'a>>
    ensures { option_map command_seen result
        ≡ command_of_five name.now first.now second.now third.now fourth.now fifth.now }
{
    match name {
        "refute" => read_refute_pair(first, second, third, fourth, fifth),
        _ => None,
    }
}

/// The command that the words are; None exactly where they are no command. Words that are kept in a list take memory to
/// be read, so it can be wanting before it is known whether they are a command: this is so of `synth` with a size in
/// range and of `position` with an eliminator alone. What is wrong without a look at a list is told without memory.
pub fn read_words(alloc: Global, words: &[String]) -> Result<Option<Command<'_>>, AllocError>
    ensures command { IfOk result (λ command. option_map command_seen command ≡ command_in words.now) }
    ensures range { IfOk result (λ command. IfSome command (λ c. IsInRange (command_seen c))) }
    ensures memory { OnErr result (IsTrue (are_listed words.now)) }
{
    match words {
        [name, first] => Ok(read_one(name, first)),
        [name, first, second] => read_two(alloc, name, first, second),
        [name, first, second, third] => read_three(alloc, name, first, second, third),
        [name, first, second, third, fourth, fifth] => {
            Ok(read_five(name, first, second, third, fourth, fifth))
        }
        _ => Ok(None),
    }
}
