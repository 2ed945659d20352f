// A profile, or its first fault.
ghost use Rattle.std.specs.Prelude.{◌≡◌, ℕ};
ghost use Rattle.vir_batch.specs.Kinds.{fault_as_value, profiles_or_faults};
ghost use Rattle.vir_files.specs.Feeding.{StopsAtFault};
ghost use Rattle.vir_files.specs.Files.{read_as};
ghost use Rattle.vir_files.specs.Performs.{AsksFirst, Performs};
ghost use Rattle.vir_machine.specs.Runs.{BenchView};

use std::alloc::Global;
use vir_course::Stop;
use vir_files::profile;
use vir_outside::Shelf;
use vir_profile::SocFile;
use vir_soc::SocFault;

// The fault of a profile as a value. Other reasons to stop stay what they are.
fn fault_as_value(answer: Result<SocFile, Stop>) -> Result<Result<SocFile, SocFault>, Stop>
    ensures { result ≡ fault_as_value answer }
{
    match answer {
        Ok(file) => Ok(Ok(file)),
        Err(Stop::ProfileRefused(fault)) => Ok(Err(fault)),
        Err(stop) => Err(stop),
    }
}

/// The profile of a file with its names, or its first fault, which is no reason to stop. Behind the piece that settles
/// that, nothing is read. No bench is touched.
pub fn profile_or_fault<S: Shelf>(
    alloc: Global,
    shelf: &mut S,
    name: &str,
) -> Result<Result<SocFile, SocFault>, Stop>
    ensures performs { (place : ℕ) (bench : BenchView)
        → Performs (λ contents. read_as profiles_or_faults name.now (contents place name.now)) (λ said x. said ≡ x)
        S.seen shelf.old shelf.new bench bench result }
    ensures asks { AsksFirst (S.seen shelf.old) (S.seen shelf.new) name.now }
    ensures stops { StopsAtFault (S.seen shelf.new) name.now }
{
    fault_as_value(profile(alloc, shelf, name))
}
