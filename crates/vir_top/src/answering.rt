// What the words ask for, done with the files of the shelf and on the bench.
ghost use Rattle.vir_course.specs.Wordings.{Tells};
ghost use Rattle.vir_files.specs.Performs.{Performs};
ghost use Rattle.vir_machine.specs.Runs.{BenchView, seen, served_by};
ghost use Rattle.vir_top.specs.Calls.{AnswersWords};
ghost use Rattle.vir_top.specs.CommandCourses.{command_course};
ghost use Rattle.vir_words.specs.Command.{IsForTwoProfiles, IsInRange, IsRuleProfileWork, are_listed, check};
ghost use Rattle.vir_words.specs.Command.{command_in, command_seen, on_profile, on_rule, on_rule_and_profile};
ghost use Rattle.vir_words.specs.Command.{refute_pair};

use crate::works::{on_profile, on_rule, on_rule_and_profile};
use std::alloc::Global;
use vir_batch::batch_of_files;
use vir_claims::{check, refute, synth};
use vir_counting::drill;
use vir_course::{Answer, Stop};
use vir_files::{
    RuleAndProfile, RuleAndTwoProfiles, certificate, profile, rule, rule_and_profile,
    rule_and_two_profiles,
};
use vir_machine::Bench;
use vir_outside::Shelf;
use vir_refute::Case;
use vir_rules::Prop;
use vir_words::{Command, ProfileWork, RuleProfileWork, RuleWork, read_words};

// Answers a command on the rule file of this name.
fn answer_rule<S: Shelf>(
    alloc: Global,
    shelf: &mut S,
    name: &str,
    work: RuleWork,
) -> Result<Answer, Stop>
    ensures { (bench : BenchView) → Performs (command_course (served_by bench) (on_rule name.now work)) Tells
        S.seen shelf.old shelf.new bench bench result }
{
    let rule = rule(alloc, shelf, name)?;
    on_rule(alloc, &rule, work)
}

// Answers a command on the profile of this name.
fn answer_profile<S: Shelf>(
    alloc: Global,
    shelf: &mut S,
    name: &str,
    work: ProfileWork,
) -> Result<Answer, Stop>
    ensures { (bench : BenchView) → Performs (command_course (served_by bench) (on_profile name.now work)) Tells
        S.seen shelf.old shelf.new bench bench result }
{
    let file = profile(alloc, shelf, name)?;
    on_profile(alloc, file, work)
}

// Answers a command on the rule file and the profile of these names.
fn answer_rule_and_profile<S: Shelf>(
    alloc: Global,
    shelf: &mut S,
    bench: &mut Bench,
    rule_name: &str,
    profile_name: &str,
    work: RuleProfileWork,
) -> Result<Answer, Stop>
    requires { IsRuleProfileWork work }
    ensures { Performs (command_course (served_by (seen kinds made bench.old))
        (on_rule_and_profile rule_name.now profile_name.now work)) Tells
        S.seen shelf.old shelf.new (seen kinds made bench.old) (seen kinds made bench.new) result }
{
    let RuleAndProfile { rule, file } = rule_and_profile(alloc, shelf, rule_name, profile_name)?;
    on_rule_and_profile(alloc, bench, &rule, file, work)
}

// Answers `check` for the certificate of this name.
fn answer_check<S: Shelf>(alloc: Global, shelf: &mut S, name: &str) -> Result<Answer, Stop>
    ensures { (bench : BenchView) → Performs (command_course (served_by bench) (check name.now)) Tells
        S.seen shelf.old shelf.new bench bench result }
{
    let certificate = certificate(alloc, shelf, name)?;
    check(alloc, &certificate)
}

// Answers `refute` for the files of a rule and of two profiles, of which the second is said to lift an alternative.
fn answer_refute_pair<S: Shelf>(
    alloc: Global,
    shelf: &mut S,
    rule_name: &str,
    prop: Prop,
    first_name: &str,
    second_name: &str,
    lifted: u16,
) -> Result<Answer, Stop>
    requires { IsForTwoProfiles prop lifted }
    ensures { (bench : BenchView) → Performs (command_course (served_by bench)
        (refute_pair rule_name.now prop first_name.now second_name.now lifted)) Tells
        S.seen shelf.old shelf.new bench bench result }
{
    let RuleAndTwoProfiles {
        rule,
        first,
        second,
    } = rule_and_two_profiles(alloc, shelf, rule_name, first_name, second_name)?;
    let first = first.profile();
    let second = second.profile();
    refute(
        alloc,
        &rule,
        prop,
        &Case::Pair {
            first,
            second,
            lifted,
        },
    )
}

// Answers a command.
fn answer_command<S: Shelf>(
    alloc: Global,
    command: Command,
    shelf: &mut S,
    bench: &mut Bench,
) -> Result<Answer, Stop>
    requires { IsInRange (command_seen command) }
    ensures { Performs
        (command_course (served_by (seen kinds made bench.old)) (command_seen command.entry)) Tells
        S.seen shelf.old shelf.new (seen kinds made bench.old) (seen kinds made bench.new) result }
{
    match command {
        Command::Synth {
            size,
            props,
            leaves,
        } => synth(alloc, size, &props, &leaves),
        Command::Drill {
            seed,
            lines,
            alternatives,
        } => drill(alloc, bench, seed, lines, alternatives),
        Command::OnRule { rule, work } => answer_rule(alloc, shelf, rule, work),
        Command::OnProfile { profile, work } => answer_profile(alloc, shelf, profile, work),
        Command::OnRuleAndProfile {
            rule,
            profile,
            work,
        } => answer_rule_and_profile(alloc, shelf, bench, rule, profile, work),
        Command::Check { certificate } => answer_check(alloc, shelf, certificate),
        Command::RefutePair {
            rule,
            prop,
            first,
            second,
            lifted,
        } => answer_refute_pair(alloc, shelf, rule, prop, first, second, lifted),
        Command::Batch { rule, manifest } => batch_of_files(alloc, shelf, bench, rule, manifest),
    }
}

/// Answers what the words ask for. Words that are no command stop it before the shelf is touched.
pub fn answer<S: Shelf>(
    alloc: Global,
    words: &[String],
    shelf: &mut S,
    bench: &mut Bench,
) -> Result<Answer, Stop>
    ensures { AnswersWords (are_listed words.now) (command_in words.now)
        S.seen shelf.old shelf.new (seen kinds made bench.old) (seen kinds made bench.new) result }
{
    match read_words(alloc, words) {
        Ok(Some(command)) => answer_command(alloc, command, shelf, bench),
        Ok(None) => Err(Stop::Usage),
        Err(_) => Err(Stop::Memory),
    }
}
