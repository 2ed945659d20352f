// The whole program over what is handed in: the top call, its headline first.
ghost use Rattle.std.specs.Prelude.{◌≡◌, ℕ, List, None, Some};
ghost use Rattle.vir_machine.specs.Runs.{seen, served_by};
ghost use Rattle.vir_outside.specs.Shelf.{Files};
ghost use Rattle.vir_top.specs.Calls.{AnswersWords, Calls};
ghost use Rattle.vir_words.specs.Command.{Command, are_listed, command_in, report};
ghost use Rattle.vir_top.specs.CommandCourses.{command_course};
ghost use Rattle.vir_top.specs.Delivery.{Delivers};
ghost use Rattle.vir_top.specs.Headline.{ReportPrinted};
ghost use Rattle.vir_top.specs.Printed.{IsDueOfCommand, IsUsageDue, Printed, faults_before, faults_of};

use crate::answering::answer;
use crate::delivery::deliver;
use std::alloc::Global;
use vir_machine::Bench;
use vir_outside::{Shelf, Sink};

/// Does what the words ask for with the files of the shelf and the counters of the bench, and answers
/// the status.
pub fn virage<S: Shelf, O: Sink, E: Sink>(
    alloc: Global,
    words: &[String],
    shelf: &mut S,
    out: &mut O,
    err: &mut E,
    bench: &mut Bench,
) -> u8
    // The headline. Where `report` answers 0, its text is appended: the rule's meaning of the profile, and of each
    // property its first derivation, and so it is true of that meaning, or the reasons why there is none.
    ensures reports { (rule profile : List ℕ) → command_in words.now ≡ Some (report rule profile) → result ≡ 0
        → ReportPrinted (S.seen shelf.old).files rule profile (O.seen out.old).written (O.seen out.new).written }
    // What each command prints with status 0, and what that affirms.
    ensures printed { (command : Command) → command_in words.now ≡ Some command → result ≡ 0
        → Printed (command_course (served_by (seen kinds made bench.old)) command) (S.seen shelf.old).files
        (O.seen out.old).written (O.seen out.new).written }
    // Of told files: the status is the one that the course asks for, 0 for a text and 1 for a denial that is so; or 7;
    // or 5 where the shelf's count rose at the last file; or 6 where the output's did. None depends on `err`.
    ensures due { (command : Command) (all : Files) → command_in words.now ≡ Some command
        → (S.seen shelf.old).files ≡ Some all → IsDueOfCommand (served_by (seen kinds made bench.old)) all command
        result (faults_before (S.seen shelf.old) (S.seen shelf.new) (O.seen out.old))
        (faults_of (S.seen shelf.new) (O.seen out.new)) }
    // Words that are no command.
    ensures usage { command_in words.now ≡ None → IsUsageDue (are_listed words.now) result }
    // The whole: there is an answer, that of the course that the words, the contents of the files and the bench come
    // to, and it is delivered. The shelf is asked for the files of that course alone, its files stay, and no count
    // falls. All clauses above follow.
    ensures calls { Calls (AnswersWords (are_listed words.now) (command_in words.now)
        S.seen shelf.old shelf.new (seen kinds made bench.old) (seen kinds made bench.new))
        (λ answer. Delivers answer result O.seen out.old out.new E.seen err.old err.new) }
{
    let answer = answer(alloc, words, shelf, bench);
    deliver(out, err, &answer)
}
