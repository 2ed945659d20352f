// The first rule that has wanted properties.
ghost use Rattle.std.specs.Prelude.{◌≡◌, ◌++◌, [], ◌∷◌, IfOk, OnOk, All, codes, decimal};
ghost use Rattle.vir_claims.specs.Claims.{synth_course};
ghost use Rattle.vir_claims.specs.Holdings.{TellsHeld};
ghost use Rattle.vir_course.specs.Courses.{Follows};
ghost use Rattle.vir_course.specs.Wordings.{Tells};
ghost use Rattle.vir_rules.specs.Claims.{of};
ghost use Rattle.vir_rules.specs.Derivations.{Derivable};
ghost use Rattle.vir_synth.specs.Firsts.{HasAll};
ghost use Rattle.vir_term.specs.Limits.{IsLeafInRange};
ghost use Rattle.vir_term.specs.Text.{term_text};
ghost use Rattle.vir_term.specs.Tree.{tree};

use either::Either;
use std::alloc::{AllocError, Global};
use vir_course::{Answer, Stop, push_held};
use vir_derive::Derivations;
use vir_rules::Prop;
use vir_synth::first_fast;
use vir_term::{Leaf, Term, push_number, push_term};

// Appends the line of a property that is derivable: its first derivation.
fn push_first(
    alloc: Global,
    text: &mut Vec<u8>,
    derivations: &Derivations,
    prop: Prop,
) -> Result<(), AllocError>
    requires { Derivable (of prop (tree derivations.now.term.now)) }
    ensures { OnOk result (TellsHeld (tree derivations.now.term.now) (prop ∷ []) text.old.items text.new.items) }
{
    let Either::Left(derivation) = derivations.derive(alloc, prop)? else {
        unreachable!()
    };
    push_held(text, prop, &derivation)
}

// Appends the lines of properties that are derivable of a rule.
fn push_firsts(
    alloc: Global,
    text: &mut Vec<u8>,
    rule: &Term,
    props: &[Prop],
) -> Result<(), AllocError>
    requires { HasAll props.now (tree rule.now) }
    ensures { OnOk result (TellsHeld (tree rule.now) props.now text.old.items text.new.items) }
{
    let derivations = Derivations::of(alloc, rule)?;
    for prop in props {
        push_first(alloc, text, &derivations, *prop)?;
    }
    Ok(())
}

// What is printed for a rule that was found.
fn found_text(alloc: Global, rule: &Term, props: &[Prop]) -> Result<Vec<u8>, AllocError>
    requires { HasAll props.now (tree rule.now) }
    ensures { IfOk result (λ text. TellsHeld (tree rule.now) props.now
        (codes "found " ++ term_text (tree rule.now) ++ codes "\n") text.items) }
{
    let mut text = Vec::new(alloc);
    text.extend_from_slice(b"found ")?;
    push_term(&mut text, rule)?;
    text.extend_from_slice(b"\n")?;
    push_firsts(alloc, &mut text, rule, props)?;
    Ok(text)
}

// What is printed where there is no such rule up to a size.
fn none_text(alloc: Global, size: u32) -> Result<Vec<u8>, AllocError>
    ensures { IfOk result (λ text. text.items ≡ codes "none up to " ++ decimal size ++ codes "\n") }
{
    let mut text = Vec::new(alloc);
    text.extend_from_slice(b"none up to ")?;
    push_number(&mut text, u64::from(size))?;
    text.extend_from_slice(b"\n")?;
    Ok(text)
}

/// Answers `synth`: with the first rule, up to a size, that is composed of these modules and of which each
/// of the properties is derivable, and their derivations; or, just where there is none, with that.
pub fn synth(alloc: Global, size: u32, props: &[Prop], modules: &[Leaf]) -> Result<Answer, Stop>
    requires { All IsLeafInRange modules.now }
    ensures { Follows Tells ⊥ (synth_course size props.now modules.now) [] result }
{
    match first_fast(alloc, modules, props, size)? {
        Some(rule) => Ok(Answer::Text(found_text(alloc, &rule, props)?)),
        None => Ok(Answer::Denial(none_text(alloc, size)?)),
    }
}
