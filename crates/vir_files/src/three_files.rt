// A rule file, and two profiles once that is accepted.
ghost use Rattle.std.specs.Prelude.{◌≡◌, IfOk};
ghost use Rattle.vir_machine.specs.Runs.{BenchView};
ghost use Rattle.vir_files.specs.Performs.{AsksFirst, Performs};
ghost use Rattle.vir_files.specs.Readings.{rule_and_two_profiles_of};
ghost use Rattle.vir_files.specs.Values.{SeesRuleTwoProfiles};
ghost use Rattle.vir_term.specs.Limits.{IsWithinLimits};
ghost use Rattle.vir_term.specs.Tree.{tree};

use crate::profile_file::profile_file;
use crate::two_files::rule_and_profile;
use std::alloc::Global;
use vir_course::Stop;
use vir_outside::Shelf;
use vir_profile::SocFile;
use vir_term::Term;

/// What a rule file and two profiles say.
#[derive(Drop)]
pub struct RuleAndTwoProfiles {
    /// The rule that the rule file defines last.
    pub rule: Term,
    /// The first profile with its names.
    pub first: SocFile,
    /// The second profile with its names.
    pub second: SocFile,
}

/// A rule and two profiles. Each file is selected once those before it are read and judged. No bench is
/// touched.
pub fn rule_and_two_profiles<S: Shelf>(
    alloc: Global,
    shelf: &mut S,
    rule_name: &str,
    first_name: &str,
    second_name: &str,
) -> Result<RuleAndTwoProfiles, Stop>
    ensures performs { (bench : BenchView)
        → Performs (λ contents. rule_and_two_profiles_of contents rule_name.now first_name.now second_name.now)
        SeesRuleTwoProfiles S.seen shelf.old shelf.new bench bench result }
    ensures within { IfOk result (λ all. IsWithinLimits (tree all.rule)) }
    ensures asks { AsksFirst (S.seen shelf.old) (S.seen shelf.new) rule_name.now }
{
    let both = rule_and_profile(alloc, shelf, rule_name, first_name)?;
    let second = profile_file(alloc, shelf, second_name)?;
    Ok(RuleAndTwoProfiles {
        rule: both.rule,
        first: both.file,
        second,
    })
}
