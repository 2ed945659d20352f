// The number k of a row, and the properties that it is in.
ghost use Rattle.std.specs.Prelude.{◌≡◌};
ghost use Rattle.vir_rules.specs.Forms.{form_seen};
ghost use Rattle.vir_rules.specs.Premises.{number_in, number_for, row_of, prop_for};
ghost use Rattle.vir_rules.specs.Props.{is_same, number_of};

use crate::form::Form;
use crate::row::{Conclusion, Row, Wanted};
use crate::rule_id::RuleId;
use crate::table::row_of;
use vir_term::Prop;

// Whether two properties are one.
fn is_same(prop: Prop, other: Prop) -> bool
    ensures { result ≡ is_same prop other }
{
    prop == other
}

// The number of a property; 0 where it has none.
fn number_of(prop: Prop) -> u32
    ensures { result ≡ number_of prop }
{
    match prop {
        Prop::Defers(k) | Prop::Rejects(k) | Prop::Elim(k) => k,
        _ => 0,
    }
}

// The number that k stands for, where a property is the wanted one.
fn number_in(wanted: Wanted, prop: Prop) -> Option<u32>
    ensures { result ≡ number_in wanted prop }
{
    match (wanted, prop) {
        (Wanted::Is(wanted), _) => is_same(wanted, prop).then_some(number_of(wanted)),
        (Wanted::DefersK, Prop::Defers(k)) | (Wanted::RejectsK, Prop::Rejects(k)) => Some(k),
        _ => None,
    }
}

// The number that k stands for, where a conclusion is this property of a term of this form.
pub(crate) fn number_by(conclusion: Conclusion, prop: Prop, form: Form) -> Option<u32>
    ensures { result ≡ number_for conclusion prop (form_seen form.entry) }
{
    let Conclusion::Has(wanted, shape) = conclusion else {
        return None;
    };
    let k = number_in(wanted, prop)?;
    form.is_shaped(shape, k).then_some(k)
}

/// The number that k stands for in the rule's row, where the row concludes this property of a term of
/// this form.
pub fn number_for(rule: RuleId, prop: Prop, form: Form) -> Option<u32>
    ensures { result ≡ number_for (row_of rule).conclusion prop (form_seen form.entry) }
{
    let Row(_, conclusion, _) = row_of(rule);
    number_by(conclusion, prop, form)
}

/// The property that a premise asks for, where the row's number is k.
pub fn prop_for(wanted: Wanted, k: u32) -> Prop
    ensures { result ≡ prop_for wanted k }
{
    match wanted {
        Wanted::Is(prop) => prop,
        Wanted::DefersK => Prop::Defers(k),
        Wanted::RejectsK => Prop::Rejects(k),
    }
}
