// A lone file, as a form of words may name it.
ghost use Rattle.std.specs.Prelude.{◌≡◌, IfOk};
ghost use Rattle.vir_cert.specs.Seen.{cert_seen};
ghost use Rattle.vir_cert.specs.Texts.{IsCert};
ghost use Rattle.vir_machine.specs.Runs.{BenchView};
ghost use Rattle.vir_files.specs.Feeding.{StopsAtFault};
ghost use Rattle.vir_files.specs.Performs.{AsksFirst, Performs};
ghost use Rattle.vir_files.specs.Readings.{certificate_at, profile_at, rule_at};
ghost use Rattle.vir_term.specs.Limits.{IsWithinLimits};
ghost use Rattle.vir_term.specs.Tree.{tree};

use crate::certificate_file::certificate_file;
use crate::profile_file::profile_file;
use crate::rule_file::rule_file;
use std::alloc::Global;
use vir_cert::Certificate;
use vir_course::Stop;
use vir_outside::Shelf;
use vir_profile::SocFile;
use vir_term::Term;

/// The rule that a rule file defines last. No bench is touched.
pub fn rule<S: Shelf>(alloc: Global, shelf: &mut S, name: &str) -> Result<Term, Stop>
    ensures performs { (bench : BenchView) → Performs (λ contents. rule_at contents 0 name.now) (λ t x. t ≡ tree x)
        S.seen shelf.old shelf.new bench bench result }
    ensures within { IfOk result (λ term. IsWithinLimits (tree term)) }
    ensures asks { AsksFirst (S.seen shelf.old) (S.seen shelf.new) name.now }
{
    rule_file(alloc, shelf, name)
}

/// A certificate, whatever its derivation derives. No bench is touched.
pub fn certificate<S: Shelf>(alloc: Global, shelf: &mut S, name: &str) -> Result<Certificate, Stop>
    ensures performs { (bench : BenchView) → Performs (λ contents. certificate_at contents 0 name.now)
        (λ c x. c ≡ cert_seen x) S.seen shelf.old shelf.new bench bench result }
    ensures within { IfOk result (λ c. IsCert (cert_seen c)) }
    ensures asks { AsksFirst (S.seen shelf.old) (S.seen shelf.new) name.now }
{
    certificate_file(alloc, shelf, name)
}

/// A profile with its names. Behind the piece that settles its first fault nothing is read. No bench is touched.
pub fn profile<S: Shelf>(alloc: Global, shelf: &mut S, name: &str) -> Result<SocFile, Stop>
    ensures performs { (bench : BenchView) → Performs (λ contents. profile_at contents 0 name.now) (λ f x. f ≡ x)
        S.seen shelf.old shelf.new bench bench result }
    ensures asks { AsksFirst (S.seen shelf.old) (S.seen shelf.new) name.now }
    ensures stops { StopsAtFault (S.seen shelf.new) name.now }
{
    profile_file(alloc, shelf, name)
}
