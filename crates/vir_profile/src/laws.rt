// What holds of profiles of every size. Each law is the contract of a function that does nothing.
ghost use Rattle.std.specs.Prelude.{◌≡◌, ◌↔◌, ℕ, true, List, None};
ghost use Rattle.std.specs.FinSet as set;
ghost use Rattle.vir_altset.specs.Sets.{Set, all, IsPart};
ghost use Rattle.vir_profile.specs.declared.ballot.Entry.{Entry};
ghost use Rattle.vir_profile.specs.Orders.{IsListing};
ghost use Rattle.vir_profile.specs.Profiles.{Votes, IsProfileOn, restrict, pairwise_weight, IsProfile};
ghost use Rattle.vir_profile.specs.Winners.{IsCondorcetWinner};
ghost use Rattle.vir_profile.specs.OrderFaults.{order_fault};

/// The orders that a profile of so many alternatives takes are those that list each of them once.
pub fn accepted_orders()
    ensures { (m : ℕ) (order : List ℕ) → (order_fault m order ≡ None) ↔ IsListing (all m) order }
{}

/// The lines that a profile takes are a profile on all of its alternatives.
pub fn profiles_are_complete()
    ensures { (votes : Votes) → IsProfile votes → IsProfileOn (all votes.alternatives) votes.lines }
{}

/// A profile on a set, restricted to a part of it, is a profile on that part.
pub fn restricted_orders()
    ensures { (a d : Set) (lines : List Entry)
        → IsPart d a → IsProfileOn a lines → IsProfileOn d (restrict d lines) }
{}

/// A profile on a set, restricted to that set, is the profile itself.
pub fn restricted_to_the_whole()
    ensures { (a : Set) (lines : List Entry) → IsProfileOn a lines → restrict a lines ≡ lines }
{}

/// Restriction to a set keeps how many voters put one member of it before another. The lines can be
/// any, also with orders that no profile takes.
pub fn restriction_keeps_pairs()
    ensures { (d : Set) (lines : List Entry) (x y : ℕ)
        → set.contains d x ≡ true → set.contains d y ≡ true
        → pairwise_weight (restrict d lines) x y ≡ pairwise_weight lines x y }
{}

/// A set has at most one Condorcet winner.
pub fn condorcet_winner_is_unique()
    ensures { (v w : ℕ) (a : Set) (lines : List Entry)
        → IsCondorcetWinner v a lines → IsCondorcetWinner w a lines → v ≡ w }
{}

/// The Condorcet winner of a set is the Condorcet winner of each part to which it belongs.
pub fn condorcet_winner_stays()
    ensures { (w : ℕ) (a d : Set) (lines : List Entry)
        → IsPart d a → set.contains d w ≡ true → IsCondorcetWinner w a lines
        → IsCondorcetWinner w d (restrict d lines) }
{}
