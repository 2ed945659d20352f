// What the rules of `drill` elect of its generated profile.
ghost use Rattle.std.specs.Prelude.{◌≡◌, ◌≤◌, ◌++◌, ◌∷◌, [], codes, decimal, length, map, None, IfOk, OnOk, OnErr};
ghost use Rattle.std.specs.Option.{option_copied};
ghost use Rattle.vir_counting.specs.Counting.{drill_course};
ghost use Rattle.vir_counting.specs.Drill.{drill_votes};
ghost use Rattle.vir_counting.specs.DrillResults.{AreServed, AreWithinLimits, MadeFirst, elected_lines};
ghost use Rattle.vir_counting.specs.DrillResults.{first_unserved_of, runs_on, size_line};
ghost use Rattle.vir_machine.specs.Runs.{seen, served_by};
ghost use Rattle.vir_course.specs.Steps.{after_steps, steps_of_runs};
ghost use Rattle.vir_course.specs.Wordings.{Tells};
ghost use Rattle.vir_course.specs.Works.{Works};
ghost use Rattle.vir_report.specs.ResultText.{set_line};
ghost use Rattle.vir_term.specs.Text.{term_text};
ghost use Rattle.vir_term.specs.Tree.{tree};

use crate::drill_profile::drill_profile;
use crate::drill_terms::drill_terms;
use crate::run::split_of;
use std::alloc::{AllocError, Global};
use vir_course::{Answer, LeafText, Stop};
use vir_machine::Bench;
use vir_profile::{Profile, SocFile, Split};
use vir_report::push_set;
use vir_tables::Election;
use vir_term::{Leaf, Term, push_number, push_term};

// The first module of the terms, one after another, that no counter serves.
fn first_unserved_of<'a>(bench: &Bench, terms: &'a [Term]) -> Option<&'a Leaf>
    ensures { option_copied result ≡ first_unserved_of (served_by (seen kinds made bench.now)) (map tree terms.now) }
{
    match terms {
        [] => None,
        [first, rest @ ..] => match bench.first_unserved(first) {
            Some(leaf) => Some(leaf),
            None => first_unserved_of(bench, rest),
        },
    }
}

// Appends the line of a rule: its text, and what it elects.
fn push_elected(text: &mut Vec<u8>, rule: &Term, split: &Split) -> Result<(), AllocError>
    ensures { OnOk result (text.new.items ≡ text.old.items ++ (term_text (tree rule.now) ++ codes " "
        ++ set_line (codes "elected") split.now.elected)) }
{
    push_term(text, rule)?;
    text.extend_from_slice(b" ")?;
    push_set(text, b"elected", &split.elected)
}

// Appends the line of each rule, by a run of it on the bench.
fn push_results(
    alloc: Global,
    text: &mut Vec<u8>,
    bench: &mut Bench,
    terms: &[Term],
    election: &Election,
) -> Result<(), AllocError>
    requires within { AreWithinLimits (map tree terms.now) }
    requires served { AreServed (seen kinds made bench.old) (map tree terms.now) }
    ensures text { OnOk result (text.new.items ≡ text.old.items ++ elected_lines election.now.profile
        (map tree terms.now)) }
    ensures ran { OnOk result (seen kinds made bench.new
        ≡ after_steps (steps_of_runs (runs_on election.now.profile (map tree terms.now))) (seen kinds made bench.old)) }
    ensures began { OnErr result (MadeFirst (runs_on election.now.profile (map tree terms.now))
        (seen kinds made bench.old) (seen kinds made bench.new)) }
{
    match terms {
        [] => Ok(()),
        [first, rest @ ..] => {
            let split = split_of(alloc, bench, first, election)?;
            push_elected(text, first, &split)?;
            push_results(alloc, text, bench, rest, election)
        }
    }
}

// Appends a word and a number.
fn push_size_word(text: &mut Vec<u8>, word: &[u8], number: u64) -> Result<(), AllocError>
    ensures { OnOk result (text.new.items ≡ text.old.items ++ (word.now ++ decimal number)) }
{
    text.extend_from_slice(word)?;
    push_number(text, number)
}

// Appends the line of a profile.
fn push_size(text: &mut Vec<u8>, profile: &Profile) -> Result<(), AllocError>
    ensures { OnOk result (text.new.items ≡ text.old.items ++ size_line profile.now) }
{
    push_size_word(text, b"lines ", profile.lines() as u64)?;
    push_size_word(text, b" voters ", profile.total())?;
    push_size_word(text, b" alternatives ", u64::from(profile.alternatives()))?;
    text.extend_from_slice(b"\n")
}

// The text of `drill` for a profile and these rules, by runs of them.
fn text_of(
    alloc: Global,
    bench: &mut Bench,
    terms: &[Term],
    profile: Profile,
) -> Result<Vec<u8>, AllocError>
    requires within { AreWithinLimits (map tree terms.now) }
    requires served { AreServed (seen kinds made bench.old) (map tree terms.now) }
    ensures text { IfOk result (λ text. text.items ≡ size_line profile ++ elected_lines profile (map tree terms.now)) }
    ensures ran { OnOk result (seen kinds made bench.new
        ≡ after_steps (steps_of_runs (runs_on profile (map tree terms.now))) (seen kinds made bench.old)) }
    ensures began { OnErr result (MadeFirst (runs_on profile (map tree terms.now)) (seen kinds made bench.old)
        (seen kinds made bench.new)) }
{
    let mut text = Vec::new(alloc);
    push_size(&mut text, &profile)?;
    let election = Election::of(alloc, SocFile::of(profile, Vec::new(alloc)))?;
    push_results(alloc, &mut text, bench, terms, &election)?;
    Ok(text)
}

/// Answers `drill` for a seed, a number of lines and a number of alternatives: what each of its rules
/// elects of the profile that they generate, by a run on the bench. The bench is asked whether it
/// serves all rules before the profile is made.
pub fn drill(
    alloc: Global,
    bench: &mut Bench,
    seed: u64,
    lines: u32,
    alternatives: u16,
) -> Result<Answer, Stop>
    requires some { 1 ≤ alternatives }
    requires few { alternatives ≤ 128 }
    requires lines { lines ≤ 100000 }
    ensures { Works (drill_course (served_by (seen kinds made bench.old)) (drill_votes seed lines alternatives)) Tells
        (seen kinds made bench.old) (seen kinds made bench.new) result }
{
    let terms = drill_terms(alloc)?;
    if let Some(leaf) = first_unserved_of(bench, &terms) {
        return Err(Stop::NoCounter(LeafText::of(alloc, leaf)?));
    }
    let profile = drill_profile(alloc, seed, lines, alternatives)?;
    Ok(Answer::Text(text_of(alloc, bench, &terms, profile)?))
}
