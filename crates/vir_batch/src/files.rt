// A rule file and a manifest, and what they come to.
ghost use Rattle.std.specs.Prelude.{◌≡◌};
ghost use Rattle.vir_batch.specs.Batches.{batch_of_files_course};
ghost use Rattle.vir_course.specs.Wordings.{Tells};
ghost use Rattle.vir_files.specs.Performs.{Performs};
ghost use Rattle.vir_machine.specs.Runs.{seen, served_by};

use crate::batches::batch;
use crate::manifest_file::manifest_file;
use std::alloc::Global;
use vir_course::{Answer, Stop};
use vir_files::rule;
use vir_machine::Bench;
use vir_outside::Shelf;

/// Answers `batch` for a rule file and a manifest of these names. The rule file is read and judged before the manifest
/// is selected, and that before any profile is.
pub fn batch_of_files<S: Shelf>(
    alloc: Global,
    shelf: &mut S,
    bench: &mut Bench,
    rule_name: &str,
    manifest_name: &str,
) -> Result<Answer, Stop>
    ensures { Performs (λ contents. batch_of_files_course (served_by (seen kinds made bench.old)) contents
        rule_name.now manifest_name.now) Tells
        S.seen shelf.old shelf.new (seen kinds made bench.old) (seen kinds made bench.new) result }
{
    let rule = rule(alloc, shelf, rule_name)?;
    let names = manifest_file(alloc, shelf, manifest_name)?;
    batch(alloc, shelf, bench, &rule, &names)
}
