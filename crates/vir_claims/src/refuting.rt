// Whether a case shows that a rule lacks a property.
ghost use Rattle.std.specs.Prelude.{◌≡◌, ◌++◌, [], IfOk, codes};
ghost use Rattle.vir_claims.specs.Claims.{refute_course};
ghost use Rattle.vir_course.specs.Courses.{Follows};
ghost use Rattle.vir_course.specs.Wordings.{Tells};
ghost use Rattle.vir_refute.specs.Judged.{case_of};
ghost use Rattle.vir_refute.specs.ReasonNames.{reason_name};
ghost use Rattle.vir_refute.specs.Violations.{IsAbout};
ghost use Rattle.vir_term.specs.Limits.{IsWithinLimits};
ghost use Rattle.vir_term.specs.Tree.{tree};

use std::alloc::{AllocError, Global};
use vir_course::{Answer, Stop};
use vir_refute::{Case, CaseVerdict, Reason, judge_case};
use vir_term::{Prop, Term};

// What is printed for a case that violates the property.
fn violation_text(alloc: Global) -> Result<Vec<u8>, AllocError>
    ensures { IfOk result (λ text. text.items ≡ codes "violated\n") }
{
    let mut text = Vec::new(alloc);
    text.extend_from_slice(b"violated\n")?;
    Ok(text)
}

// What is printed for one that doesn't, for this reason.
fn reason_text(alloc: Global, reason: Reason) -> Result<Vec<u8>, AllocError>
    ensures { IfOk result (λ text. text.items ≡ codes "not violated: " ++ reason_name reason ++ codes "\n") }
{
    let mut text = Vec::new(alloc);
    text.extend_from_slice(b"not violated: ")?;
    text.extend_from_slice(reason.name().as_bytes())?;
    text.extend_from_slice(b"\n")?;
    Ok(text)
}

/// Answers `refute` for a rule, a property and a case: that the case violates the property, so that the rule
/// lacks it, or else with the first reason why it doesn't. The property must be one that speaks of such cases.
pub fn refute(alloc: Global, rule: &Term, prop: Prop, case: &Case) -> Result<Answer, Stop>
    requires limits { IsWithinLimits (tree rule.now) }
    requires about { IsAbout prop (case_of case.now) }
    ensures { Follows Tells ⊥ (refute_course (tree rule.now) prop (case_of case.now)) [] result }
{
    match judge_case(alloc, rule, prop, case)? {
        CaseVerdict::Violated => Ok(Answer::Text(violation_text(alloc)?)),
        CaseVerdict::NotViolated(reason) => Ok(Answer::Denial(reason_text(alloc, reason)?)),
    }
}
