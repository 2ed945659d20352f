// A certificate, read whole and judged.
ghost use Rattle.std.specs.Prelude.{◌≡◌, IfOk};
ghost use Rattle.vir_cert.specs.Certs.{cert_of};
ghost use Rattle.vir_cert.specs.Seen.{cert_seen};
ghost use Rattle.vir_cert.specs.Texts.{IsCert};
ghost use Rattle.vir_files.specs.Files.{certificates};
ghost use Rattle.vir_files.specs.Judges.{Judges};
ghost use Rattle.vir_files.specs.Performs.{ReadsFile};

use crate::text_file::text_file;
use std::alloc::Global;
use vir_cert::{CERTIFICATE_LIMIT, Certificate, read_cert};
use vir_course::Stop;
use vir_outside::Shelf;
use vir_read::TextError;

// The certificate that a text is.
fn judge(alloc: Global, text: &[u8]) -> Result<Certificate, Stop>
    ensures judges { Judges cert_seen (cert_of text.now) result }
    ensures within { IfOk result (λ c. IsCert (cert_seen c)) }
{
    match read_cert(alloc, text) {
        Ok(certificate) => Ok(certificate),
        Err(TextError::Fault(fault)) => Err(Stop::TextRefused(fault)),
        Err(TextError::Memory) => Err(Stop::Memory),
    }
}

/// The certificate that a file is.
pub fn certificate_file<S: Shelf>(
    alloc: Global,
    shelf: &mut S,
    name: &str,
) -> Result<Certificate, Stop>
    ensures reads { ReadsFile certificates (λ c x. c ≡ cert_seen x) name.now (S.seen shelf.old) (S.seen shelf.new)
        result }
    ensures within { IfOk result (λ c. IsCert (cert_seen c)) }
{
    let text = text_file(alloc, shelf, name, CERTIFICATE_LIMIT)?;
    judge(alloc, &text)
}
