// What is done with what files say, by their form.
ghost use Rattle.std.specs.Prelude.{◌≡◌, []};
ghost use Rattle.vir_course.specs.Courses.{Follows};
ghost use Rattle.vir_course.specs.Wordings.{Tells};
ghost use Rattle.vir_course.specs.Works.{Works};
ghost use Rattle.vir_files.specs.Readings.{rule_profile};
ghost use Rattle.vir_machine.specs.Runs.{seen, served_by};
ghost use Rattle.vir_term.specs.Limits.{IsWithinLimits};
ghost use Rattle.vir_term.specs.Tree.{tree};
ghost use Rattle.vir_top.specs.CommandCourses.{profile_course, rule_course, rule_profile_course};
ghost use Rattle.vir_words.specs.Command.{IsRuleProfileWork};

use std::alloc::Global;
use vir_claims::{listing, prove, refute, simplify};
use vir_counting::{compare, count, explain, position, report};
use vir_course::{Answer, Stop};
use vir_machine::Bench;
use vir_profile::SocFile;
use vir_refute::Case;
use vir_term::Term;
use vir_words::{ProfileWork, RuleProfileWork, RuleWork};

/// Works on a rule.
pub fn on_rule(alloc: Global, rule: &Term, work: RuleWork) -> Result<Answer, Stop>
    requires { IsWithinLimits (tree rule.now) }
    ensures { Follows Tells ⊥ (rule_course work (tree rule.now)) [] result }
{
    match work {
        RuleWork::Listing => listing(alloc, rule),
        RuleWork::Prove { prop } => prove(alloc, rule, prop),
        RuleWork::Simplify => simplify(alloc, rule),
    }
}

/// Works on a profile.
pub fn on_profile(alloc: Global, file: SocFile, work: ProfileWork) -> Result<Answer, Stop>
    ensures { Follows Tells ⊥ (profile_course work file) [] result }
{
    match work {
        ProfileWork::Position { weights, kind } => position(alloc, weights, kind, file),
        ProfileWork::Pairs => compare(alloc, file),
    }
}

/// Works on a rule and a profile.
pub fn on_rule_and_profile(
    alloc: Global,
    bench: &mut Bench,
    rule: &Term,
    file: SocFile,
    work: RuleProfileWork,
) -> Result<Answer, Stop>
    requires limits { IsWithinLimits (tree rule.now) }
    requires work { IsRuleProfileWork work }
    ensures { Works
        (rule_profile_course (served_by (seen kinds made bench.old)) work (rule_profile (tree rule.now) file)) Tells
        (seen kinds made bench.old) (seen kinds made bench.new) result }
{
    match work {
        RuleProfileWork::Count => count(alloc, bench, rule, file),
        RuleProfileWork::Report => report(alloc, bench, rule, file),
        RuleProfileWork::Explain => explain(alloc, rule, file),
        RuleProfileWork::Refute { prop } => {
            let profile = file.profile();
            refute(alloc, rule, prop, &Case::One { profile })
        }
    }
}
