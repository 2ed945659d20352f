// Whether a property of a rule is derivable.
ghost use Rattle.std.specs.Prelude.{◌≡◌, [], IfOk};
ghost use Rattle.vir_cert.specs.Texts.{cert_text};
ghost use Rattle.vir_claims.specs.Claims.{prove_course};
ghost use Rattle.vir_course.specs.Courses.{Follows};
ghost use Rattle.vir_course.specs.Reports.{finding_text, underived};
ghost use Rattle.vir_course.specs.Wordings.{Tells};
ghost use Rattle.vir_rules.specs.Reasons.{reasons_seen};
ghost use Rattle.vir_rules.specs.RuleTrees.{rule_tree};
ghost use Rattle.vir_term.specs.Limits.{IsWithinLimits};
ghost use Rattle.vir_term.specs.Tree.{tree};

use either::Either;
use std::alloc::{AllocError, Global};
use vir_cert::{Certificate, print_cert};
use vir_course::{Answer, Stop, push_underived};
use vir_derive::derive;
use vir_rules::{Derivation, Judgement, Prop, Why};
use vir_term::Term;

// The certificate of a property of a rule, with this derivation.
fn certificate_text(
    alloc: Global,
    rule: &Term,
    prop: Prop,
    derivation: Derivation,
) -> Result<Vec<u8>, AllocError>
    ensures { IfOk result (λ text. text.items
        ≡ cert_text (record { term = tree rule.now; prop = prop; derivation = rule_tree derivation })) }
{
    let term = rule.copy(alloc)?;
    let certificate = Certificate {
        term,
        prop,
        derivation,
    };
    print_cert(alloc, &certificate)
}

// That a property has no derivation, for these reasons.
fn denial_text(alloc: Global, prop: Prop, why: &Why) -> Result<Vec<u8>, AllocError>
    ensures { IfOk result (λ text. text.items ≡ finding_text prop (underived (reasons_seen why.now))) }
{
    let mut text = Vec::new(alloc);
    push_underived(&mut text, prop, why)?;
    Ok(text)
}

/// Answers `prove` for a rule and a property: with a certificate of the first derivation, or, just where
/// there is none, with the reasons.
pub fn prove(alloc: Global, rule: &Term, prop: Prop) -> Result<Answer, Stop>
    requires { IsWithinLimits (tree rule.now) }
    ensures { Follows Tells ⊥ (prove_course (tree rule.now) prop) [] result }
{
    let judgement = Judgement::Of { prop, term: rule };
    match derive(alloc, judgement)? {
        Either::Left(derivation) => Ok(Answer::Text(certificate_text(
            alloc, rule, prop, derivation,
        )?)),
        Either::Right(why) => Ok(Answer::Denial(denial_text(alloc, prop, &why)?)),
    }
}
