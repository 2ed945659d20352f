// The call that the program makes, from all its words to the status that it ends with.
ghost use Rattle.std.specs.Prelude.{◌≡◌, ◌↔◌, ◌⊎◌, drop, IfErr, IfOk};
ghost use Rattle.std.specs.IoError.{error_kind};
ghost use Rattle.std.specs.Process.{exit_status};
ghost use Rattle.std.specs.declared.io.ErrorKind.TheVariants.{OutOfMemory};
ghost use Rattle.std.specs.Vec.Iter.{into_iter_items};
ghost use Rattle.vir_bench.specs.Exits.{Exits, status_or_memory};

use std::alloc::{AllocError, Global};
use std::env::Args;
use std::io;
use std::process::ExitCode;
use vir_bench::call_on_full_bench;
use vir_outside::{Shelf, Sink};
use vir_top::{OUT_OF_MEMORY, USAGE_FAULT};

// The words behind the first, which is the program's name.
fn words_behind_name(all: &[String]) -> &[String]
    ensures { result.now ≡ drop 1 all.now }
{
    all.get(1..).unwrap_or(&[])
}

// The status of the call as that of the program.
fn exit_code(answered: Result<u8, AllocError>) -> ExitCode
    ensures { exit_status result ≡ status_or_memory answered }
{
    match answered {
        Ok(status) => ExitCode::from(status),
        Err(_) => ExitCode::from(OUT_OF_MEMORY),
    }
}

// Does what the words behind the program's name ask for, once, and ends with the status of that.
fn call<S: Shelf, O: Sink, E: Sink>(
    alloc: Global,
    all: &[String],
    shelf: &mut S,
    out: &mut O,
    err: &mut E,
) -> ExitCode
    ensures { Exits (drop 1 all.now) (exit_status result)
        S.seen shelf.old shelf.new O.seen out.old out.new E.seen err.old err.new }
{
    let words = words_behind_name(all);
    let answered = call_on_full_bench(alloc, words, shelf, out, err);
    exit_code(answered)
}

// The status where the words can't be had: want of memory where that is why, and else one isn't text.
fn status_of(error: &io::Error) -> u8
    ensures memory { (result ≡ 7) ↔ (error_kind error.now ≡ OutOfMemory) }
    ensures statuses { (result ≡ 7) ⊎ (result ≡ 2) }
{
    if error.kind() == io::ErrorKind::OutOfMemory {
        OUT_OF_MEMORY
    } else {
        USAGE_FAULT
    }
}

/// Does what the words ask for that the system gives, the first of which is the program's name, once, and ends with the
/// status of that. Where it gives none, nothing is done.
pub fn call_given<S: Shelf, O: Sink, E: Sink>(
    alloc: Global,
    given: io::Result<Args>,
    shelf: &mut S,
    out: &mut O,
    err: &mut E,
) -> ExitCode
    ensures words { IfOk given (λ args. Exits (drop 1 (into_iter_items args)) (exit_status result)
        S.seen shelf.old shelf.new O.seen out.old out.new E.seen err.old err.new) }
    ensures none { IfErr given (λ error. ((exit_status result ≡ 7) ↔ (error_kind error ≡ OutOfMemory))
        × ((exit_status result ≡ 7) ⊎ (exit_status result ≡ 2))
        × (shelf.new ≡ shelf.old) × (out.new ≡ out.old) × (err.new ≡ err.old)) }
{
    match given {
        Ok(args) => match args.collect::<Vec<String>>(alloc) {
            Ok(all) => call(alloc, &all, shelf, out, err),
            Err(_) => ExitCode::from(OUT_OF_MEMORY),
        },
        Err(error) => ExitCode::from(status_of(&error)),
    }
}
