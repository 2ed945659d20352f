// What a rule elects of a profile, and which properties it has.
ghost use Rattle.std.specs.Prelude.{◌≡◌, ◌⊎◌, ◌≤◌, ◌++◌, [], ◌∷◌, true, IfOk, OnOk, OnErr, IsErrOf};
ghost use Rattle.std.specs.List.{flat_map};
ghost use Rattle.vir_machine.specs.Uses.{all_served};
ghost use Rattle.vir_term.specs.Limits.{IsWithinLimits};
ghost use Rattle.vir_term.specs.Props.{all_props};
ghost use Rattle.vir_term.specs.Tree.{tree};
ghost use Rattle.vir_course.specs.Reports.{head_text, name_line, profile_lines, rule_line};
ghost use Rattle.vir_course.specs.Wordings.{Tells};
ghost use Rattle.vir_course.specs.Works.{Works};
ghost use Rattle.vir_counting.specs.Findings.{IsReport, TellsOf};
ghost use Rattle.vir_counting.specs.Counting.{report_course};
ghost use Rattle.vir_machine.specs.Runs.{after_run, seen, served_by};

use crate::run::split_of_file;
use either::Either;
use std::alloc::{AllocError, Global};
use vir_course::{Answer, LeafText, Stop, push_held, push_underived};
use vir_derive::Derivations;
use vir_machine::Bench;
use vir_profile::{Name, Profile, SocFile};
use vir_report::push_result;
use vir_rules::Prop;
use vir_term::{Term, push_number, push_term};

// Appends the line of a name.
fn push_name(text: &mut Vec<u8>, name: &Name) -> Result<(), AllocError>
    ensures { OnOk result (text.new.items ≡ text.old.items ++ name_line name.now) }
{
    text.extend_from_slice(b"name ")?;
    push_number(text, u64::from(name.number))?;
    text.extend_from_slice(b": ")?;
    text.extend_from_slice(name.text.bytes())?;
    text.extend_from_slice(b"\n")
}

// Appends the lines of names.
pub(crate) fn push_names(text: &mut Vec<u8>, names: &[Name]) -> Result<(), AllocError>
    ensures { OnOk result (text.new.items ≡ text.old.items ++ flat_map name_line names.now) }
{
    for name in names {
        push_name(text, name)?;
    }
    Ok(())
}

// Appends the line of a rule.
fn push_rule(text: &mut Vec<u8>, rule: &Term) -> Result<(), AllocError>
    ensures { OnOk result (text.new.items ≡ text.old.items ++ rule_line (tree rule.now)) }
{
    text.extend_from_slice(b"rule ")?;
    push_term(text, rule)?;
    text.extend_from_slice(b"\n")
}

// Appends the lines of a profile.
pub(crate) fn push_profile(text: &mut Vec<u8>, profile: &Profile) -> Result<(), AllocError>
    ensures { OnOk result (text.new.items ≡ text.old.items ++ profile_lines profile.now) }
{
    text.extend_from_slice(b"alternatives ")?;
    push_number(text, u64::from(profile.alternatives()))?;
    text.extend_from_slice(b"\nvoters ")?;
    push_number(text, profile.total())?;
    text.extend_from_slice(b"\n")
}

// Appends what stands before the result: the rule, and the profile with its names.
pub(crate) fn push_head(text: &mut Vec<u8>, rule: &Term, file: &SocFile) -> Result<(), AllocError>
    ensures { OnOk result (text.new.items ≡ text.old.items ++ head_text (tree rule.now) file.now) }
{
    push_rule(text, rule)?;
    push_profile(text, file.profile())?;
    push_names(text, file.names())
}

// Appends what is found of a property: its first derivation, or the reasons against it.
fn push_finding(
    alloc: Global,
    text: &mut Vec<u8>,
    derivations: &Derivations,
    prop: Prop,
) -> Result<(), AllocError>
    ensures { OnOk result (TellsOf (tree derivations.now.term.now) (prop ∷ []) text.old.items text.new.items) }
{
    match derivations.derive(alloc, prop)? {
        Either::Left(derivation) => push_held(text, prop, &derivation),
        Either::Right(why) => push_underived(text, prop, &why),
    }
}

// Appends what is found of each property that is reported.
fn push_findings(alloc: Global, text: &mut Vec<u8>, rule: &Term) -> Result<(), AllocError>
    ensures { OnOk result (TellsOf (tree rule.now) all_props text.old.items text.new.items) }
{
    let derivations = Derivations::of(alloc, rule)?;
    for prop in Prop::all() {
        push_finding(alloc, text, &derivations, *prop)?;
    }
    Ok(())
}

// The report of a rule on a profile, by a run of it.
fn text_of(
    alloc: Global,
    bench: &mut Bench,
    rule: &Term,
    file: SocFile,
) -> Result<Vec<u8>, AllocError>
    requires within { IsWithinLimits (tree rule.now) }
    requires served { all_served (served_by (seen kinds made bench.old)) (tree rule.now) ≡ true }
    ensures text { IfOk result (λ text. IsReport (tree rule.now) file text.items) }
    ensures ran { OnOk result (seen kinds made bench.new
        ≡ after_run (record { term = tree rule.now; votes = file.profile }) (seen kinds made bench.old)) }
    ensures began { OnErr result ((seen kinds made bench.new ≡ seen kinds made bench.old)
        ⊎ (seen kinds made bench.new
        ≡ after_run (record { term = tree rule.now; votes = file.profile }) (seen kinds made bench.old))) }
{
    let mut text = Vec::new(alloc);
    push_head(&mut text, rule, &file)?;
    let split = split_of_file(alloc, bench, rule, file)?;
    push_result(&mut text, &split)?;
    push_findings(alloc, &mut text, rule)?;
    Ok(text)
}

/// Answers `report` for a rule and a profile, by a run on the bench.
pub fn report(alloc: Global, bench: &mut Bench, rule: &Term, file: SocFile) -> Result<Answer, Stop>
    requires { IsWithinLimits (tree rule.now) }
    ensures { Works (report_course (served_by (seen kinds made bench.old)) (tree rule.now) file) Tells
        (seen kinds made bench.old) (seen kinds made bench.new) result }
{
    if let Some(leaf) = bench.first_unserved(rule) {
        return Err(Stop::NoCounter(LeafText::of(alloc, leaf)?));
    }
    Ok(Answer::Text(text_of(alloc, bench, rule, file)?))
}
