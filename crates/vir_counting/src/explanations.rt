// How a rule comes to its result on a profile, and how many voters put one alternative before another.
ghost use Rattle.std.specs.Prelude.{◌≡◌, [], IfErr, IfOk, codes};
ghost use Rattle.vir_course.specs.Courses.{Follows};
ghost use Rattle.vir_course.specs.Explained.{IsExplanation, explain_text};
ghost use Rattle.vir_course.specs.Wordings.{Tells};
ghost use Rattle.vir_explain.specs.TextLimits.{IsTooLong};
ghost use Rattle.vir_explain.specs.declared.unexplained.Unexplained.TheVariants.{TooLong};
ghost use Rattle.vir_term.specs.Limits.{IsWithinLimits};
ghost use Rattle.vir_term.specs.Tree.{tree};
ghost use Rattle.vir_counting.specs.Counting.{explain_course, pairs_course, pairs_said};

use crate::reports::{push_head, push_names, push_profile};
use crate::run::election_for;
use std::alloc::{AllocError, Global};
use vir_course::{Answer, Stop};
use vir_explain::{Unexplained, push_explanation, push_pairs};
use vir_profile::SocFile;
use vir_tables::Election;
use vir_term::Term;

// How a rule comes to its result on a profile.
fn explained(alloc: Global, rule: &Term, file: SocFile) -> Result<Vec<u8>, Unexplained>
    requires { IsWithinLimits (tree rule.now) }
    ensures text { IfOk result (λ text. IsExplanation (tree rule.now) file text.items) }
    ensures long { IfErr result (λ why. why ≡ TooLong → IsTooLong (explain_text (tree rule.now) file)) }
{
    let mut text = Vec::new(alloc);
    push_head(&mut text, rule, &file)?;
    let election = election_for(alloc, rule, file)?;
    let _split = push_explanation(&mut text, rule, &election)?;
    Ok(text)
}

// That the text is too long.
fn too_long(alloc: Global) -> Result<Vec<u8>, AllocError>
    ensures { IfOk result (λ text. text.items ≡ codes "explanation too long\n") }
{
    let mut text = Vec::new(alloc);
    text.extend_from_slice(b"explanation too long\n")?;
    Ok(text)
}

/// Answers `explain` for a rule and a profile: by a denial just where the text would be too long. No run is made, and
/// no bench is asked.
pub fn explain(alloc: Global, rule: &Term, file: SocFile) -> Result<Answer, Stop>
    requires { IsWithinLimits (tree rule.now) }
    ensures { Follows Tells ⊥ (explain_course (tree rule.now) file) [] result }
{
    match explained(alloc, rule, file) {
        Ok(text) => Ok(Answer::Text(text)),
        Err(Unexplained::TooLong) => Ok(Answer::Denial(too_long(alloc)?)),
        Err(Unexplained::Memory) => Err(Stop::Memory),
    }
}

// How many voters put one alternative before another.
fn compared(alloc: Global, file: SocFile) -> Result<Vec<u8>, AllocError>
    ensures { IfOk result (λ text. text.items ≡ pairs_said file) }
{
    let mut text = Vec::new(alloc);
    push_profile(&mut text, file.profile())?;
    push_names(&mut text, file.names())?;
    let election = Election::of(alloc, file)?;
    push_pairs(&mut text, &election)?;
    Ok(text)
}

/// Answers `pairs` for a profile. No run is made, and no bench is asked.
pub fn compare(alloc: Global, file: SocFile) -> Result<Answer, Stop>
    ensures { Follows Tells ⊥ (pairs_course file) [] result }
{
    Ok(Answer::Text(compared(alloc, file)?))
}
