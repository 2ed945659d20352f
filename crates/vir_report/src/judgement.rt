// The text of a judgement.
ghost use Rattle.std.specs.Prelude.{◌≡◌, IfOk};
ghost use Rattle.vir_rules.specs.Claims.{claim};
ghost use Rattle.vir_report.specs.ClaimTexts.{claim_text};
ghost use Rattle.vir_term.specs.Appending.{Appends};

use crate::prop::push_prop;
use std::alloc::{AllocError, Global};
use vir_rules::Judgement;
use vir_term::push_term;

/// Appends the text of a judgement: a property and its term, or two terms that are disjoint.
#[tactic(auto, using(vir_term::proofs::Beginnings::beginnings))]
pub(crate) fn push_judgement(text: &mut Vec<u8>, judgement: Judgement) -> Result<(), AllocError>
    ensures { Appends result text.old.items text.new.items (claim_text (claim judgement.entry)) }
{
    match judgement {
        Judgement::Of { prop, term } => {
            push_prop(text, prop)?;
            text.extend_from_slice(b" of ")?;
            push_term(text, term)
        }
        Judgement::Disj { left, right } => {
            text.extend_from_slice(b"disj of ")?;
            push_term(text, left)?;
            text.extend_from_slice(b" and ")?;
            push_term(text, right)
        }
    }
}

/// The text of a judgement.
pub fn judgement_text(alloc: Global, judgement: Judgement) -> Result<Vec<u8>, AllocError>
    ensures { IfOk result (λ text. text.items ≡ claim_text (claim judgement.entry)) }
{
    let mut text = Vec::new(alloc);
    push_judgement(&mut text, judgement)?;
    Ok(text)
}
