// A rule file, and a profile once that is accepted.
ghost use Rattle.std.specs.Prelude.{◌≡◌, IfOk};
ghost use Rattle.vir_machine.specs.Runs.{BenchView};
ghost use Rattle.vir_files.specs.Performs.{AsksFirst, Performs};
ghost use Rattle.vir_files.specs.Readings.{rule_and_profile_of};
ghost use Rattle.vir_files.specs.Values.{SeesRuleProfile};
ghost use Rattle.vir_term.specs.Limits.{IsWithinLimits};
ghost use Rattle.vir_term.specs.Tree.{tree};

use crate::profile_file::profile_file;
use crate::rule_file::rule_file;
use std::alloc::Global;
use vir_course::Stop;
use vir_outside::Shelf;
use vir_profile::SocFile;
use vir_term::Term;

/// What a rule file and a profile say.
#[derive(Drop)]
pub struct RuleAndProfile {
    /// The rule that the rule file defines last.
    pub rule: Term,
    /// The profile with its names.
    pub file: SocFile,
}

/// A rule and a profile. The rule file is read and judged before the profile is selected. No bench is
/// touched.
pub fn rule_and_profile<S: Shelf>(
    alloc: Global,
    shelf: &mut S,
    rule_name: &str,
    profile_name: &str,
) -> Result<RuleAndProfile, Stop>
    ensures performs { (bench : BenchView)
        → Performs (λ contents. rule_and_profile_of contents rule_name.now profile_name.now) SeesRuleProfile
        S.seen shelf.old shelf.new bench bench result }
    ensures within { IfOk result (λ both. IsWithinLimits (tree both.rule)) }
    ensures asks { AsksFirst (S.seen shelf.old) (S.seen shelf.new) rule_name.now }
{
    let rule = rule_file(alloc, shelf, rule_name)?;
    let file = profile_file(alloc, shelf, profile_name)?;
    Ok(RuleAndProfile { rule, file })
}
