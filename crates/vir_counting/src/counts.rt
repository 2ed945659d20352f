// What a rule elects, rejects and defers of a profile.
ghost use Rattle.std.specs.Prelude.{◌≡◌};
ghost use Rattle.vir_machine.specs.Runs.{seen, served_by};
ghost use Rattle.vir_course.specs.Wordings.{Tells};
ghost use Rattle.vir_course.specs.Works.{Works};
ghost use Rattle.vir_term.specs.Limits.{IsWithinLimits};
ghost use Rattle.vir_term.specs.Tree.{tree};
ghost use Rattle.vir_counting.specs.Counting.{count_course};

use crate::run::split_of_file;
use std::alloc::Global;
use vir_course::{Answer, LeafText, Stop};
use vir_machine::Bench;
use vir_profile::SocFile;
use vir_report::result_text;
use vir_term::Term;

/// Answers `count` for a rule and a profile, by a run on the bench.
pub fn count(alloc: Global, bench: &mut Bench, rule: &Term, file: SocFile) -> Result<Answer, Stop>
    requires { IsWithinLimits (tree rule.now) }
    ensures { Works (count_course (served_by (seen kinds made bench.old)) (tree rule.now) file) Tells
        (seen kinds made bench.old) (seen kinds made bench.new) result }
{
    if let Some(leaf) = bench.first_unserved(rule) {
        return Err(Stop::NoCounter(LeafText::of(alloc, leaf)?));
    }
    let split = split_of_file(alloc, bench, rule, file)?;
    Ok(Answer::Text(result_text(alloc, &split)?))
}
