// How the rows of the table are read.
ghost use Rattle.std.specs.Prelude.{◌≡◌, ◌≤◌, length, slice_get, option_map, IfSome};
ghost use Rattle.std.specs.Option.{option_and_then};
ghost use Rattle.vir_rules.specs.Claims.{claim};
ghost use Rattle.vir_rules.specs.Premises.{row_of, premises, fits};

use crate::judgement::Judgement;
use crate::letters::{fill, letters_in};
use crate::row::{Need, Row};
use crate::rule_id::RuleId;
use crate::table::row_of;

/// How many premises the rule's row has: at most 4.
pub fn need_count(rule: RuleId) -> usize
    ensures value { result ≡ length (row_of rule).premises }
    ensures few { result ≤ 4 }
{
    let Row(_, _, needs) = row_of(rule);
    needs.len()
}

/// A premise of the rule's row, as the row writes it; the first one is at 0.
pub fn need_at(rule: RuleId, i: usize) -> Option<Need>
    ensures { result ≡ slice_get (row_of rule).premises i }
{
    let Row(_, _, needs) = row_of(rule);
    needs.get(i).copied()
}

/// Whether the rule fits the judgement: whether that is what its row concludes.
pub fn fits(rule: RuleId, judgement: Judgement) -> bool
    ensures { result ≡ fits rule (claim judgement.entry) }
{
    let Row(_, conclusion, _) = row_of(rule);
    letters_in(conclusion, judgement).is_some()
}

/// How many premises the rule has on the judgement, at most 4; none where it doesn't fit.
pub fn premise_count(rule: RuleId, judgement: Judgement) -> Option<usize>
    ensures value { result ≡ option_map length (premises rule (claim judgement.entry)) }
    ensures few { IfSome result (λ count. count ≤ 4) }
{
    let Row(_, conclusion, _) = row_of(rule);
    letters_in(conclusion, judgement)?;
    Some(need_count(rule))
}

/// A premise of the rule on the judgement, the first one at 0; none where it doesn't fit, and where it has
/// no such premise.
pub fn premise<'a>(rule: RuleId, judgement: Judgement<'a>, i: usize) -> Option<Judgement<'a>>
    ensures { option_map claim result ≡ option_and_then (λ needed. slice_get needed i)
        (premises rule (claim judgement.entry)) }
{
    let Row(_, conclusion, _) = row_of(rule);
    let letters = letters_in(conclusion, judgement)?;
    let need = need_at(rule, i)?;
    Some(fill(letters, need))
}
