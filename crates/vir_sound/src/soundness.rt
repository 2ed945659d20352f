// What follows from the rules together. Each law is the contract of a function that does nothing.
ghost use Rattle.vir_term.specs.Limits.{IsInRange};
ghost use Rattle.vir_term.specs.Tree.{Tree};
ghost use Rattle.vir_rules.specs.Claims.{Claim};
ghost use Rattle.vir_rules.specs.Derivations.{Valid};
ghost use Rattle.vir_rules.specs.RuleTrees.{RuleTree};
ghost use Rattle.vir_sound.specs.Truth.{IsProper, IsProperClaim, IsTrueClaim};

/// What a valid derivation derives is true: of every set of alternatives and every profile on it.
#[tactic(auto, using(crate::proofs::DerivedTruth::true_by))]
pub fn valid_derivations_are_true()
    ensures { (d : RuleTree) (c : Claim) → IsProperClaim c → Valid d c → IsTrueClaim c }
{}

/// A term whose numbers are within the limits names no number of alternatives below 1.
#[tactic(auto, using(crate::proofs::ProperTerms::proper_in_range))]
pub fn terms_within_limits_are_proper()
    ensures { (t : Tree) → IsInRange t → IsProper t }
{}
