//! The program: counts a profile with a voting rule, and reports which properties the rule has.
//!
//! `main` is one call, with the words that the system gives, the files of the current folder and the standard streams,
//! and ends with the status that this answers (`Exits` of `vir_bench`). That call makes a bench of eight counters that
//! serve every module, by `call_on_full_bench` of `vir_bench`, and does what `virage` of `vir_top` does on it with the
//! words behind the program's name. Beside these it stands on `vir_outside`, for the real files and streams.
#![tactic(auto)]

ghost use Rattle.std.specs.Prelude.{drop, IfOk};
ghost use Rattle.std.specs.Process.{exit_status};
ghost use Rattle.std.specs.Vec.Iter.{into_iter_items};
ghost use Rattle.vir_outside.specs.Adapters.{folder_seen, stream_seen};
ghost use Rattle.vir_bench.specs.Exits.{Exits};

mod calling;

use calling::call_given;
use std::alloc::Global;
use std::env::Args;
use std::process::ExitCode;
use std::rt::{Stderr, Stdout};
use std::{env, io};
use vir_outside::{FolderShelf, StreamSink};

// The call on the real files and streams; the types of the streams tell which is which.
fn call_on_streams(
    alloc: Global,
    given: io::Result<Args>,
    shelf: &mut FolderShelf<'_, HostRuntime>,
    out: &mut StreamSink<Stdout>,
    err: &mut StreamSink<Stderr>,
) -> ExitCode
    ensures { IfOk given (λ args. Exits (drop 1 (into_iter_items args)) (exit_status result)
        folder_seen shelf.old shelf.new stream_seen out.old out.new stream_seen err.old err.new) }
{
    call_given(alloc, given, shelf, out, err)
}

fn main(rt: HostRuntime) -> ExitCode {
    call_on_streams(
        rt.alloc(),
        env::args(&rt),
        &mut FolderShelf::new(&rt),
        &mut StreamSink::new(rt.stdout()),
        &mut StreamSink::new(rt.stderr()),
    )
}
