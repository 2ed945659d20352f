// The checker of derivations.
ghost use Rattle.std.specs.Prelude.{◌≡◌, ◌+◌, ◌≤◌, ◌<◌, ℕ, min, length, None, Some, List, MatchResult};
ghost use Rattle.vir_rules.specs.BadNodes.{BadNode, first_bad};
ghost use Rattle.vir_rules.specs.Claims.{claim};
ghost use Rattle.vir_rules.specs.RuleTrees.{rule_tree, size};
ghost use Rattle.vir_sound.specs.Truth.{IsProperClaim, IsTrueClaim};
ghost use Rattle.vir_check.specs.Verdicts.{IsVerdict, greatest_number};

use crate::verdict::Verdict;
use vir_rules::{Derivation, Judgement, Unfit, premise, premise_count};

// A node that is bad, by its number.
#[derive(Clone, Copy)]
struct Refusal {
    node: u64,
    why: Unfit,
}

// The number after the last node of a derivation, where the root has this number; or the first bad node.
fn number_after(judgement: Judgement, derivation: &Derivation, number: u64) -> Result<u64, Refusal>
    ensures { MatchResult result
        (λ next. (first_bad (rule_tree derivation.now) (claim judgement.entry) ≡ None)
        × (next ≡ min (number + size (rule_tree derivation.now)) greatest_number))
        (λ refusal. (bad : BadNode) × (first_bad (rule_tree derivation.now) (claim judgement.entry) ≡ Some bad)
        × (refusal.node ≡ min (number + bad.number) greatest_number) × (refusal.why ≡ bad.why)) }
{
    let Some(count) = premise_count(derivation.rule, judgement) else {
        return Err(Refusal {
            node: number,
            why: Unfit::RuleDoesNotFit,
        });
    };
    if derivation.children.len() != count {
        return Err(Refusal {
            node: number,
            why: Unfit::WrongNumberOfPremises,
        });
    }
    let mut next = number.saturating_add(1);
    for i in 0..count {
        let Some(child) = derivation.children.at(i) else {
            unreachable!()
        };
        let Some(wanted) = premise(derivation.rule, judgement, i) else {
            unreachable!()
        };
        match number_after(wanted, child, next) {
            Ok(after) => next = after,
            Err(refusal) => return Err(refusal),
        }
    }
    Ok(next)
}

/// Whether a derivation is valid for a judgement: whether the rule of each node fits what the node is to
/// derive, and it has as many children as the rule has premises. It takes no memory.
///
/// What is accepted is true: of the term's splits on every set of alternatives and every profile, of
/// whatever size. The terms are to name no number of alternatives below 1, as terms within the limits do.
pub fn check(judgement: Judgement, derivation: &Derivation) -> Verdict
    ensures verdict { IsVerdict result (rule_tree derivation.now) (claim judgement.entry) }
    ensures truth { result ≡ Verdict.Accepted → IsProperClaim (claim judgement.entry)
        → IsTrueClaim (claim judgement.entry) }
{
    match number_after(judgement, derivation, 0) {
        Ok(_) => Verdict::Accepted,
        Err(Refusal { node, why }) => Verdict::Refused { node, why },
    }
}
