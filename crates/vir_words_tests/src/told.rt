// What words are, as a text.
use std::alloc::{AllocError, Global};
use std::process::Abort;
use vir_positional::{Elimination, Weights};
use vir_report::push_prop;
use vir_term::{Leaf, Prop, push_leaf, push_number};
use vir_words::{Command, ProfileWork, RuleProfileWork, RuleWork, read_words};

// Words, and the command with what it holds; empty where they are none.
pub(crate) type Row = (&'static [&'static str], &'static str);

fn owned(alloc: Global, words: &[&str]) -> Result<Vec<String>, AllocError> {
    let mut owned = Vec::new(alloc);
    for word in words {
        owned.push(word.to_string(alloc)?)?;
    }
    Ok(owned)
}

fn push_props(text: &mut Vec<u8>, props: &[Prop]) -> Result<(), AllocError> {
    for prop in props {
        text.extend_from_slice(b" ")?;
        push_prop(text, *prop)?;
    }
    Ok(())
}

fn push_leaves(text: &mut Vec<u8>, leaves: &[Leaf]) -> Result<(), AllocError> {
    for leaf in leaves {
        text.extend_from_slice(b" ")?;
        push_leaf(text, leaf)?;
    }
    Ok(())
}

fn push_weights(text: &mut Vec<u8>, weights: &Weights) -> Result<(), AllocError> {
    for i in 0..weights.len() {
        let weight = weights.at(i).unwrap_or(0);
        text.extend_from_slice(b" ")?;
        push_number(text, weight)?;
    }
    Ok(())
}

fn push_name(text: &mut Vec<u8>, name: &str) -> Result<(), AllocError> {
    text.extend_from_slice(b" ")?;
    text.extend_from_slice(name.as_bytes())
}

fn push_two(
    text: &mut Vec<u8>,
    command: &str,
    first: &str,
    second: &str,
) -> Result<(), AllocError> {
    text.extend_from_slice(command.as_bytes())?;
    push_name(text, first)?;
    push_name(text, second)
}

fn push_one(text: &mut Vec<u8>, command: &str, first: &str) -> Result<(), AllocError> {
    text.extend_from_slice(command.as_bytes())?;
    push_name(text, first)
}

fn push_prove(text: &mut Vec<u8>, rule: &str, prop: Prop) -> Result<(), AllocError> {
    push_one(text, "prove", rule)?;
    push_props(text, &[prop])
}

fn push_refute(
    text: &mut Vec<u8>,
    rule: &str,
    prop: Prop,
    profile: &str,
) -> Result<(), AllocError> {
    push_one(text, "refute", rule)?;
    push_props(text, &[prop])?;
    push_name(text, profile)
}

fn push_refute_pair(
    text: &mut Vec<u8>,
    rule: &str,
    prop: Prop,
    first: &str,
    second: &str,
    lifted: u16,
) -> Result<(), AllocError> {
    push_refute(text, rule, prop, first)?;
    push_name(text, second)?;
    text.extend_from_slice(b" lifts ")?;
    push_number(text, u64::from(lifted))
}

fn push_position(
    text: &mut Vec<u8>,
    weights: &Weights,
    kind: Elimination,
    profile: &str,
) -> Result<(), AllocError> {
    push_two(text, "position", name_of(kind), profile)?;
    push_weights(text, weights)
}

fn push_drill(
    text: &mut Vec<u8>,
    seed: u64,
    lines: u32,
    alternatives: u16,
) -> Result<(), AllocError> {
    text.extend_from_slice(b"drill ")?;
    push_number(text, seed)?;
    text.extend_from_slice(b" ")?;
    push_number(text, u64::from(lines))?;
    text.extend_from_slice(b" ")?;
    push_number(text, u64::from(alternatives))
}

fn push_synth(
    text: &mut Vec<u8>,
    size: u32,
    props: &[Prop],
    leaves: &[Leaf],
) -> Result<(), AllocError> {
    text.extend_from_slice(b"synth ")?;
    push_number(text, u64::from(size))?;
    push_props(text, props)?;
    text.extend_from_slice(b" of")?;
    push_leaves(text, leaves)
}

fn name_of(kind: Elimination) -> &'static str {
    match kind {
        Elimination::Max => "max",
        Elimination::Min => "min",
        Elimination::Below => "below",
        Elimination::Upto => "upto",
    }
}

// What is asked of a rule.
fn push_rule_work(text: &mut Vec<u8>, rule: &str, work: RuleWork) -> Result<(), AllocError> {
    match work {
        RuleWork::Listing => push_one(text, "listing", rule),
        RuleWork::Prove { prop } => push_prove(text, rule, prop),
        RuleWork::Simplify => push_one(text, "simplify", rule),
    }
}

// What is asked of a profile.
fn push_profile_work(
    text: &mut Vec<u8>,
    profile: &str,
    work: &ProfileWork,
) -> Result<(), AllocError> {
    match work {
        ProfileWork::Position { weights, kind } => push_position(text, weights, *kind, profile),
        ProfileWork::Pairs => push_one(text, "pairs", profile),
    }
}

// What is asked of a rule and a profile.
fn push_rule_profile_work(
    text: &mut Vec<u8>,
    rule: &str,
    profile: &str,
    work: RuleProfileWork,
) -> Result<(), AllocError> {
    match work {
        RuleProfileWork::Count => push_two(text, "count", rule, profile),
        RuleProfileWork::Report => push_two(text, "report", rule, profile),
        RuleProfileWork::Explain => push_two(text, "explain", rule, profile),
        RuleProfileWork::Refute { prop } => push_refute(text, rule, prop, profile),
    }
}

// The command with what it holds.
fn push_command(text: &mut Vec<u8>, command: &Command) -> Result<(), AllocError> {
    match command {
        Command::Synth {
            size,
            props,
            leaves,
        } => push_synth(text, *size, props, leaves),
        Command::Drill {
            seed,
            lines,
            alternatives,
        } => push_drill(text, *seed, *lines, *alternatives),
        Command::OnRule { rule, work } => push_rule_work(text, rule, *work),
        Command::OnProfile { profile, work } => push_profile_work(text, profile, work),
        Command::OnRuleAndProfile {
            rule,
            profile,
            work,
        } => push_rule_profile_work(text, rule, profile, *work),
        Command::Check { certificate } => push_one(text, "check", certificate),
        Command::RefutePair {
            rule,
            prop,
            first,
            second,
            lifted,
        } => push_refute_pair(text, rule, *prop, first, second, *lifted),
        Command::Batch { rule, manifest } => push_two(text, "batch", rule, manifest),
    }
}

// The command that the words are, with what it holds; empty where they are none.
pub(crate) fn told(alloc: Global, words: &[String]) -> Result<Vec<u8>, AllocError> {
    let mut text = Vec::new(alloc);
    match read_words(alloc, words) {
        Ok(Some(command)) => push_command(&mut text, &command)?,
        Ok(None) => {}
        Err(e) => return Err(e),
    }
    Ok(text)
}

// The words of each row are its command.
pub(crate) fn expect_rows(rt: &impl Abort, alloc: Global, rows: &[Row]) -> Result<(), AllocError> {
    for (words, command) in rows {
        let owned = owned(alloc, words)?;
        let told = told(alloc, &owned)?;
        assert!(rt; told.as_slice() == command.as_bytes(), "{words:?}");
    }
    Ok(())
}
