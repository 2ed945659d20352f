// Whether a case violates a property of a rule.
ghost use Rattle.std.specs.Prelude.{◌≡◌, ◌↔◌, IfOk, Ok};
ghost use Rattle.vir_altset.specs.Sets.{all};
ghost use Rattle.vir_profile.specs.Elections.{IsElection};
ghost use Rattle.vir_term.specs.Tree.{tree};
ghost use Rattle.vir_mean.specs.Meaning.{mean};
ghost use Rattle.vir_mean.specs.Properties.{Holds};
ghost use Rattle.vir_rules.specs.Claims.{of};
ghost use Rattle.vir_rules.specs.Derivations.{Valid};
ghost use Rattle.vir_rules.specs.RuleTrees.{RuleTree};
ghost use Rattle.vir_sound.specs.Truth.{IsProper};
ghost use Rattle.vir_refute.specs.Cases.{AreElections, IsOneOrLift};
ghost use Rattle.vir_refute.specs.Judged.{case_of, IsVerdict};
ghost use Rattle.vir_refute.specs.Violations.{IsAbout, Premise, Conclusion, Violates};

use crate::case::Case;
use crate::one::judge_one;
use crate::pair::judge_pair;
use crate::verdict::{CaseVerdict, Reason};
use std::alloc::{AllocError, Global};
use vir_profile::Profile;
use vir_term::{Prop, Term};

// Does nothing. Its clause tells a caller that a profile is an election.
fn is_election(profile: &Profile)
    ensures { IsElection (all profile.now.alternatives) profile.now.lines }
{
    let _ = profile.alternatives();
}

// The same of all profiles of a case.
fn are_elections(case: &Case)
    ensures { AreElections (case_of case.now) }
{
    match case {
        Case::One { profile } => is_election(profile),
        Case::Pair { first, second, .. } => {
            is_election(first);
            is_election(second);
        }
    }
}

// The verdict on a case of either kind.
fn verdict_on(
    alloc: Global,
    term: &Term,
    prop: Prop,
    case: &Case,
) -> Result<CaseVerdict, AllocError>
    ensures { IfOk result (λ verdict. IsVerdict verdict prop (mean (tree term.now)) (case_of case.now)) }
{
    match case {
        Case::One { profile } => judge_one(alloc, term, prop, profile),
        Case::Pair {
            first,
            second,
            lifted,
        } => judge_pair(alloc, term, prop, first, second, *lifted),
    }
}

/// Whether a case violates a property of a rule, and if it doesn't, why not.
///
/// What is violated is false of the rule, so no derivation is valid for it. What isn't violated by this
/// case may be by another.
pub fn judge_case(
    alloc: Global,
    term: &Term,
    prop: Prop,
    case: &Case,
) -> Result<CaseVerdict, AllocError>
    requires { IsAbout prop (case_of case.now) }
    ensures violated { IfOk result (λ verdict. (verdict ≡ CaseVerdict.Violated)
        ↔ Violates prop (mean (tree term.now)) (case_of case.now)) }
    ensures not_a_lift { IfOk result (λ verdict. (verdict ≡ CaseVerdict.NotViolated Reason.NotALift)
        ↔ (IsOneOrLift (case_of case.now) → ⊥)) }
    ensures premise_not_met { IfOk result (λ verdict. (verdict ≡ CaseVerdict.NotViolated Reason.PremiseNotMet)
        ↔ (IsOneOrLift (case_of case.now) × (Premise prop (mean (tree term.now)) (case_of case.now) → ⊥))) }
    ensures clause_holds { IfOk result (λ verdict. (verdict ≡ CaseVerdict.NotViolated Reason.ClauseHolds)
        ↔ (IsOneOrLift (case_of case.now) × Premise prop (mean (tree term.now)) (case_of case.now)
        × Conclusion prop (mean (tree term.now)) (case_of case.now))) }
    ensures refuted { result ≡ Ok CaseVerdict.Violated → Holds prop (mean (tree term.now)) → ⊥ }
    ensures underivable { result ≡ Ok CaseVerdict.Violated → IsProper (tree term.now)
        → (d : RuleTree) → Valid d (of prop (tree term.now)) → ⊥ }
{
    are_elections(case);
    verdict_on(alloc, term, prop, case)
}
