// The top call, on a bench that serves every module.
ghost use Rattle.std.specs.Prelude.{◌≡◌, ◌≢◌, ℕ, List, None, Some, IfOk, OnErr, OnOk};
ghost use Rattle.vir_machine.specs.Runs.{BenchView};
ghost use Rattle.vir_machine.specs.Uses.{first_unserved};
ghost use Rattle.vir_outside.specs.Shelf.{Files};
ghost use Rattle.vir_term.specs.Tree.{Tree};
ghost use Rattle.vir_top.specs.Calls.{AnswersWords, Calls};
ghost use Rattle.vir_top.specs.CommandCourses.{command_course};
ghost use Rattle.vir_top.specs.Delivery.{Delivers};
ghost use Rattle.vir_top.specs.Headline.{ReportPrinted};
ghost use Rattle.vir_top.specs.Printed.{IsDueOfCommand, IsUsageDue, Printed, faults_before, faults_of};
ghost use Rattle.vir_words.specs.Command.{Command, are_listed, command_in, report};
ghost use Rattle.vir_bench.specs.FullBench.{full_bench, full_kinds};

use std::alloc::{AllocError, Global};
use vir_counter::{EliminatorCounter, FixedCounter, OrderCounter, PluralityCounter};
use vir_machine::Bench;
use vir_outside::{Shelf, Sink};
use vir_score::KeptScore;
use vir_term::Score;
use vir_top::virage;

/// Answers the status of `virage` on a bench of eight counters, which is made for this call: one of
/// the modules that elect or defer all, one of those of a fixed order, one of plurality, and one of the
/// eliminators of each score. Where memory for them is wanting, nothing is done.
pub fn call_on_full_bench<S: Shelf, O: Sink, E: Sink>(
    alloc: Global,
    words: &[String],
    shelf: &mut S,
    out: &mut O,
    err: &mut E,
) -> Result<u8, AllocError>
    // The headline, as of `virage`.
    ensures reports { IfOk result (λ status. (rule profile : List ℕ)
        → command_in words.now ≡ Some (report rule profile) → status ≡ 0
        → ReportPrinted (S.seen shelf.old).files rule profile (O.seen out.old).written (O.seen out.new).written) }
    // The bench serves every module, and so none is told to have no counter, whatever the shelf tells.
    ensures serves_all { OnOk result ((term : Tree) → first_unserved full_kinds term ≡ None) }
    ensures never_unserved { IfOk result (λ status. status ≢ 8) }
    // What each command prints with status 0, and the status that is due of told files.
    ensures printed { IfOk result (λ status. (command : Command) → command_in words.now ≡ Some command → status ≡ 0
        → Printed (command_course full_kinds command) (S.seen shelf.old).files
        (O.seen out.old).written (O.seen out.new).written) }
    ensures due { IfOk result (λ status. (command : Command) (all : Files) → command_in words.now ≡ Some command
        → (S.seen shelf.old).files ≡ Some all → IsDueOfCommand full_kinds all command status
        (faults_before (S.seen shelf.old) (S.seen shelf.new) (O.seen out.old))
        (faults_of (S.seen shelf.new) (O.seen out.new))) }
    // Words that are no command.
    ensures usage { IfOk result (λ status. command_in words.now ≡ None → IsUsageDue (are_listed words.now) status) }
    // The whole, on a bench of such counters, none of which was called.
    ensures calls { IfOk result (λ status. (left : BenchView) × Calls
        (AnswersWords (are_listed words.now) (command_in words.now) S.seen shelf.old shelf.new full_bench left)
        (λ answer. Delivers answer status O.seen out.old out.new E.seen err.old err.new)) }
    // Where no bench can be made, nothing is done.
    ensures undone { OnErr result ((shelf.new ≡ shelf.old) × (out.new ≡ out.old) × (err.new ≡ err.old)) }
{
    let mut bench = Bench::new(alloc);
    bench.push(Box::new(alloc, FixedCounter::new())?)?;
    bench.push(Box::new(alloc, OrderCounter::new())?)?;
    bench.push(Box::new(alloc, PluralityCounter::new())?)?;
    let plurality = EliminatorCounter::new(KeptScore::new(Score::Plurality));
    bench.push(Box::new(alloc, plurality)?)?;
    let borda = EliminatorCounter::new(KeptScore::new(Score::Borda));
    bench.push(Box::new(alloc, borda)?)?;
    let copeland = EliminatorCounter::new(KeptScore::new(Score::Copeland));
    bench.push(Box::new(alloc, copeland)?)?;
    let minimax = EliminatorCounter::new(KeptScore::new(Score::Minimax));
    bench.push(Box::new(alloc, minimax)?)?;
    let condorcet = EliminatorCounter::new(KeptScore::new(Score::Condorcet));
    bench.push(Box::new(alloc, condorcet)?)?;
    Ok(virage(alloc, words, shelf, out, err, &mut bench))
}
