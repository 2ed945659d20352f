// What a rule comes to on the profiles of a manifest.
ghost use Rattle.std.specs.Prelude.{◌≡◌, ◌⊎◌, ◌≤◌, ◌<◌, ◌-◌, ◌^◌, ℕ, true, Ok, OnOk, OnErr};
ghost use Rattle.vir_batch.specs.Batches.{all_counted, batch_course, count_said, profile_counted, served_course};
ghost use Rattle.vir_batch.specs.BatchTexts.{line_by};
ghost use Rattle.vir_batch.specs.Stages.{AreLinesOf, IsLineAdded, IsLinePut, IsOneMore};
ghost use Rattle.vir_course.specs.Wordings.{Tells};
ghost use Rattle.vir_course.specs.Works.{Works};
ghost use Rattle.vir_files.specs.Performs.{Performs};
ghost use Rattle.vir_machine.specs.Runs.{after_run, seen, served_by};
ghost use Rattle.vir_machine.specs.Uses.{all_served};
ghost use Rattle.vir_term.specs.Limits.{IsWithinLimits};
ghost use Rattle.vir_term.specs.Tree.{tree};

use crate::compiled_rule::CompiledRule;
use crate::file_names::FileNames;
use crate::lines::Lines;
use crate::profile_or_fault::profile_or_fault;
use std::alloc::{AllocError, Global};
use vir_course::{Answer, LeafText, Stop};
use vir_machine::Bench;
use vir_outside::Shelf;
use vir_profile::SocFile;
use vir_soc::SocFault;
use vir_term::Term;

// Counts a profile, and adds its line.
fn add_counted(
    alloc: Global,
    bench: &mut Bench,
    compiled: &mut CompiledRule<'_>,
    name: &str,
    file: SocFile,
    lines: &mut Lines,
) -> Result<(), AllocError>
    requires served { all_served (served_by (seen kinds made bench.old)) (tree compiled.old.rule.now) ≡ true }
    requires room { lines.old.profiles < 2 ^ 64 - 1 }
    ensures line { OnOk result
        (IsLinePut (line_by (tree compiled.old.rule.now) name.now (Ok file)) 0 lines.old lines.new) }
    ensures ran { OnOk result (seen kinds made bench.new
        ≡ after_run (record { term = tree compiled.old.rule.now; votes = file.profile }) (seen kinds made bench.old)) }
    ensures began { OnErr result ((seen kinds made bench.new ≡ seen kinds made bench.old)
        ⊎ (seen kinds made bench.new
        ≡ after_run (record { term = tree compiled.old.rule.now; votes = file.profile }) (seen kinds made bench.old))) }
    ensures same { compiled.new.rule.now ≡ compiled.old.rule.now }
{
    let voters = file.profile().total();
    let split = compiled.split_of(alloc, bench, file)?;
    lines.put_counted(alloc, name, voters, &split)
}

// Does what is to be done for a profile or its fault, and adds its line.
fn add_said(
    alloc: Global,
    bench: &mut Bench,
    compiled: &mut CompiledRule<'_>,
    name: &str,
    said: Result<SocFile, SocFault>,
    lines: &mut Lines,
) -> Result<(), Stop>
    requires served { all_served (served_by (seen kinds made bench.old)) (tree compiled.old.rule.now) ≡ true }
    requires room { lines.old.profiles < 2 ^ 64 - 1 }
    requires few { lines.old.refused ≤ lines.old.profiles }
    ensures works { Works (count_said (tree compiled.old.rule.now) name.now said)
        (λ one done. IsLineAdded (tree compiled.old.rule.now) one lines.old lines.new)
        (seen kinds made bench.old) (seen kinds made bench.new) result }
    ensures more { OnOk result (IsOneMore lines.old lines.new) }
    ensures served { OnOk result (served_by (seen kinds made bench.new) ≡ served_by (seen kinds made bench.old)) }
    ensures same { compiled.new.rule.now ≡ compiled.old.rule.now }
{
    match said {
        Ok(file) => {
            add_counted(alloc, bench, compiled, name, file, lines)?;
            Ok(())
        }
        Err(fault) => {
            lines.put_refused(name, fault)?;
            Ok(())
        }
    }
}

// Reads a profile, does what is to be done for it, and adds its line.
fn add_profile<S: Shelf>(
    alloc: Global,
    shelf: &mut S,
    bench: &mut Bench,
    compiled: &mut CompiledRule<'_>,
    name: &str,
    lines: &mut Lines,
) -> Result<(), Stop>
    requires served { all_served (served_by (seen kinds made bench.old)) (tree compiled.old.rule.now) ≡ true }
    requires room { lines.old.profiles < 2 ^ 64 - 1 }
    requires few { lines.old.refused ≤ lines.old.profiles }
    ensures performs { (place : ℕ) → Performs (λ contents. profile_counted contents place
        (tree compiled.old.rule.now) name.now) (λ one done. IsLineAdded (tree compiled.old.rule.now) one lines.old
        lines.new) S.seen shelf.old shelf.new (seen kinds made bench.old) (seen kinds made bench.new) result }
    ensures more { OnOk result (IsOneMore lines.old lines.new) }
    ensures served { OnOk result (served_by (seen kinds made bench.new) ≡ served_by (seen kinds made bench.old)) }
    ensures same { compiled.new.rule.now ≡ compiled.old.rule.now }
{
    match profile_or_fault(alloc, shelf, name) {
        Ok(said) => add_said(alloc, bench, compiled, name, said, lines),
        Err(stop) => Err(stop),
    }
}

// The lines of all profiles, each counted before the next one is read.
fn lines_of_all<S: Shelf>(
    alloc: Global,
    shelf: &mut S,
    bench: &mut Bench,
    compiled: &mut CompiledRule<'_>,
    names: &FileNames,
) -> Result<Lines, Stop>
    requires { all_served (served_by (seen kinds made bench.old)) (tree compiled.old.rule.now) ≡ true }
    ensures { Performs (λ contents. all_counted contents 2 (tree compiled.old.rule.now) names.now)
        (AreLinesOf (tree compiled.old.rule.now))
        S.seen shelf.old shelf.new (seen kinds made bench.old) (seen kinds made bench.new) result }
{
    let mut lines = Lines::new(alloc);
    for i in 0..names.len() {
        let Some(name) = names.at(i) else {
            unreachable!();
        };
        if let Err(stop) = add_profile(alloc, shelf, bench, compiled, name, &mut lines) {
            return Err(stop);
        }
    }
    Ok(lines)
}

// The text of all profiles, where the bench serves each module of the rule.
fn text_of_all<S: Shelf>(
    alloc: Global,
    shelf: &mut S,
    bench: &mut Bench,
    compiled: &mut CompiledRule<'_>,
    names: &FileNames,
) -> Result<Answer, Stop>
    requires { all_served (served_by (seen kinds made bench.old)) (tree compiled.old.rule.now) ≡ true }
    ensures { Performs (λ contents. served_course contents (tree compiled.old.rule.now) names.now) Tells
        S.seen shelf.old shelf.new (seen kinds made bench.old) (seen kinds made bench.new) result }
{
    let lines = lines_of_all(alloc, shelf, bench, compiled, names)?;
    Ok(Answer::Text(lines.finish()?))
}

/// Answers `batch` for a rule and the names of profiles. Each profile is read from the shelf and counted by a run on
/// the bench before the next one is read; a profile that is refused is told with its fault, and no run is made for it.
/// Where a counter is missing for a module of the rule, no profile is selected.
pub fn batch<S: Shelf>(
    alloc: Global,
    shelf: &mut S,
    bench: &mut Bench,
    rule: &Term,
    names: &FileNames,
) -> Result<Answer, Stop>
    requires { IsWithinLimits (tree rule.now) }
    ensures { Performs
        (λ contents. batch_course (served_by (seen kinds made bench.old)) contents (tree rule.now) names.now) Tells
        S.seen shelf.old shelf.new (seen kinds made bench.old) (seen kinds made bench.new) result }
{
    if let Some(leaf) = bench.first_unserved(rule) {
        return Err(Stop::NoCounter(LeafText::of(alloc, leaf)?));
    }
    let mut compiled = CompiledRule::of(alloc, rule)?;
    text_of_all(alloc, shelf, bench, &mut compiled, names)
}
