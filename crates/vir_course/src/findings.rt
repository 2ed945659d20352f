// The texts of what is found of a property.
ghost use Rattle.vir_course.specs.Reports.{finding_text, holds, underived};
ghost use Rattle.vir_rules.specs.Reasons.{reasons_seen};
ghost use Rattle.vir_rules.specs.RuleTrees.{rule_tree};
ghost use Rattle.vir_term.specs.Appending.{Appends};

use std::alloc::AllocError;
use vir_report::{push_derivation, push_prop, push_why};
use vir_rules::{Derivation, Prop, Why};

/// Appends the line of a property that has this derivation.
#[tactic(auto, using(vir_term::proofs::Beginnings::beginnings))]
pub fn push_held(text: &mut Vec<u8>, prop: Prop, derivation: &Derivation) -> Result<(), AllocError>
    ensures { Appends result text.old.items text.new.items (finding_text prop (holds (rule_tree derivation.now))) }
{
    text.extend_from_slice(b"holds ")?;
    push_prop(text, prop)?;
    text.extend_from_slice(b" ")?;
    push_derivation(text, derivation)?;
    text.extend_from_slice(b"\n")
}

/// Appends the lines of a property that has no derivation, for these reasons.
#[tactic(auto, using(vir_term::proofs::Beginnings::beginnings))]
pub fn push_underived(text: &mut Vec<u8>, prop: Prop, why: &Why) -> Result<(), AllocError>
    ensures { Appends result text.old.items text.new.items (finding_text prop (underived (reasons_seen why.now))) }
{
    text.extend_from_slice(b"underived ")?;
    push_prop(text, prop)?;
    text.extend_from_slice(b"\n")?;
    push_why(text, why)
}
