// What a rule is simplified to.
ghost use Rattle.std.specs.Prelude.{◌≡◌, ◌++◌, [], IfOk, OnOk, codes};
ghost use Rattle.std.specs.List.{flat_map};
ghost use Rattle.vir_claims.specs.Claims.{simplify_course};
ghost use Rattle.vir_course.specs.Courses.{Follows};
ghost use Rattle.vir_course.specs.Simplified.{step_line};
ghost use Rattle.vir_course.specs.Wordings.{Tells};
ghost use Rattle.vir_term.specs.Limits.{IsWithinLimits};
ghost use Rattle.vir_term.specs.Text.{term_text};
ghost use Rattle.vir_term.specs.Tree.{tree};

use std::alloc::{AllocError, Global};
use vir_course::{Answer, Stop};
use vir_simplify::Step;
use vir_term::{Term, push_number, push_term};

// Appends the line of a step.
fn push_step(text: &mut Vec<u8>, step: &Step) -> Result<(), AllocError>
    ensures { OnOk result (text.new.items ≡ text.old.items ++ step_line step.now) }
{
    text.extend_from_slice(step.equation.name().as_bytes())?;
    text.extend_from_slice(b" ")?;
    push_number(text, u64::from(step.place))?;
    text.extend_from_slice(b"\n")
}

// Appends the lines of steps.
fn push_steps(text: &mut Vec<u8>, steps: &[Step]) -> Result<(), AllocError>
    ensures { OnOk result (text.new.items ≡ text.old.items ++ flat_map step_line steps.now) }
{
    for step in steps {
        push_step(text, step)?;
    }
    Ok(())
}

// What is printed for a term that was simplified to this one, by these steps.
fn simple_text(alloc: Global, term: &Term, steps: &[Step]) -> Result<Vec<u8>, AllocError>
    ensures { IfOk result (λ text. text.items
        ≡ codes "simple " ++ term_text (tree term.now) ++ codes "\n" ++ flat_map step_line steps.now) }
{
    let mut text = Vec::new(alloc);
    text.extend_from_slice(b"simple ")?;
    push_term(&mut text, term)?;
    text.extend_from_slice(b"\n")?;
    push_steps(&mut text, steps)?;
    Ok(text)
}

/// Answers `simplify` for a rule: with the term that comes of taking the next step until there is none, which
/// means what the rule means, and these steps.
pub fn simplify(alloc: Global, rule: &Term) -> Result<Answer, Stop>
    requires { IsWithinLimits (tree rule.now) }
    ensures { Follows Tells ⊥ (simplify_course (tree rule.now)) [] result }
{
    let found = vir_simplify::simplify(alloc, rule)?;
    Ok(Answer::Text(simple_text(alloc, &found.term, found.trace.steps())?))
}
