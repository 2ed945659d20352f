// Whether a certificate is right.
ghost use Rattle.std.specs.Prelude.{◌≡◌, ℕ, List, ◌++◌, [], IfOk, codes, decimal};
ghost use Rattle.vir_cert.specs.Seen.{cert_seen};
ghost use Rattle.vir_cert.specs.Texts.{IsCert};
ghost use Rattle.vir_claims.specs.Claims.{check_course};
ghost use Rattle.vir_course.specs.Courses.{Follows};
ghost use Rattle.vir_course.specs.Wordings.{Tells};
ghost use Rattle.vir_rules.specs.UnfitNames.{unfit_name};

use std::alloc::{AllocError, Global};
use vir_cert::Certificate;
use vir_check::{Unfit, Verdict};
use vir_course::{Answer, Stop};
use vir_rules::Judgement;
use vir_term::push_number;

// What is printed for a certificate that is accepted.
fn acceptance_text(alloc: Global) -> Result<Vec<u8>, AllocError>
    ensures { IfOk result (λ text. text.items ≡ codes "accepted\n") }
{
    let mut text = Vec::new(alloc);
    text.extend_from_slice(b"accepted\n")?;
    Ok(text)
}

// What is printed for a certificate with this first bad node.
fn refusal_text(alloc: Global, node: u64, why: Unfit) -> Result<Vec<u8>, AllocError>
    ensures { IfOk result (λ text. text.items
        ≡ codes "refused node " ++ decimal node ++ codes ": " ++ unfit_name why ++ codes "\n") }
{
    let mut text = Vec::new(alloc);
    text.extend_from_slice(b"refused node ")?;
    push_number(&mut text, node)?;
    text.extend_from_slice(b": ")?;
    text.extend_from_slice(why.name().as_bytes())?;
    text.extend_from_slice(b"\n")?;
    Ok(text)
}

/// Answers `check` for a certificate: that it is accepted, just where its derivation is valid, or else with
/// the first bad node.
pub fn check(alloc: Global, certificate: &Certificate) -> Result<Answer, Stop>
    requires { IsCert (cert_seen certificate.now) }
    ensures { Follows Tells ⊥ (check_course (cert_seen certificate.now)) [] result }
{
    let judgement = Judgement::Of {
        prop: certificate.prop,
        term: &certificate.term,
    };
    match vir_check::check(judgement, &certificate.derivation) {
        Verdict::Accepted => Ok(Answer::Text(acceptance_text(alloc)?)),
        Verdict::Refused { node, why } => Ok(Answer::Denial(refusal_text(alloc, node, why)?)),
    }
}
