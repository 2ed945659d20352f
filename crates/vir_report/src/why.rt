// The text of reasons.
ghost use Rattle.std.specs.Prelude.{◌≡◌, IfOk};
ghost use Rattle.vir_rules.specs.Reasons.{reason_seen, reasons_seen};
ghost use Rattle.vir_report.specs.ClaimTexts.{reason_line, reasons_text};
ghost use Rattle.vir_term.specs.Appending.{Appends};

use crate::judgement::push_judgement;
use std::alloc::{AllocError, Global};
use vir_rules::{Why, WhyLine};
use vir_term::push_number;

// Appends the line of a reason: the rule, the number of its first premise that can't be derived, and
// that premise.
#[tactic(auto, using(vir_term::proofs::Beginnings::beginnings))]
fn push_line(text: &mut Vec<u8>, line: &WhyLine) -> Result<(), AllocError>
    ensures { Appends result text.old.items text.new.items (reason_line (reason_seen line.now)) }
{
    text.extend_from_slice(b"- ")?;
    text.extend_from_slice(line.rule.name().as_bytes())?;
    text.extend_from_slice(b" ")?;
    push_number(text, u64::from(line.number))?;
    text.extend_from_slice(b" ")?;
    push_judgement(text, line.premise)?;
    text.extend_from_slice(b"\n")
}

/// Appends the text of reasons: a line for each, or the one line that no rule fits.
#[tactic(auto, using(vir_term::proofs::Beginnings::beginnings))]
pub fn push_why(text: &mut Vec<u8>, why: &Why) -> Result<(), AllocError>
    ensures { Appends result text.old.items text.new.items (reasons_text (reasons_seen why.now)) }
{
    if why.len() == 0 {
        return text.extend_from_slice(b"- no rule\n");
    }
    for i in 0..why.len() {
        let Some(line) = why.at(i) else {
            unreachable!()
        };
        push_line(text, line)?;
    }
    Ok(())
}

/// The text of reasons.
pub fn why_text(alloc: Global, why: &Why) -> Result<Vec<u8>, AllocError>
    ensures { IfOk result (λ text. text.items ≡ reasons_text (reasons_seen why.now)) }
{
    let mut text = Vec::new(alloc);
    push_why(&mut text, why)?;
    Ok(text)
}
