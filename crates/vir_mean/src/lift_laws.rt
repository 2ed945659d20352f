// What lifting one alternative does to scores, and to restricted profiles, on profiles of every size.
// Each law is the contract of a function that does nothing.
ghost use Rattle.std.specs.Prelude.{◌≡◌, ◌≢◌, ◌⊎◌, ◌≤ℤ◌, ◌<ℤ◌, true, false, ℕ, List};
ghost use Rattle.std.specs.FinSet as set;
ghost use Rattle.vir_altset.specs.Sets.{Set};
ghost use Rattle.vir_profile.specs.declared.ballot.Entry.{Entry};
ghost use Rattle.vir_profile.specs.Profiles.{IsProfileOn, restrict};
ghost use Rattle.vir_profile.specs.Winners.{IsCondorcetWinner};
ghost use Rattle.vir_term.specs.declared.score.Score.{Score};
ghost use Rattle.vir_term.specs.declared.score.Score.TheVariants.{Plurality, Borda, Copeland, Minimax, Condorcet};
ghost use Rattle.vir_mean.specs.Eliminators.{is_passed};
ghost use Rattle.vir_mean.specs.Lifts.{SameBut, Lifts};
ghost use Rattle.vir_mean.specs.Scores.{score};

/// A lift never lowers a score of the alternative that it lifts.
pub fn lifted_score_never_falls()
    ensures { (a : Set) (p q : List Entry) (x : ℕ)
        → IsProfileOn a p → IsProfileOn a q → set.contains a x ≡ true → Lifts x p q
        → (s : Score) → score s a p x ≤ℤ score s a q x }
{}

/// An alternative that moves back may lose score, as 1 does where the one order 1, 2 becomes 2, 1. So it
/// isn't enough that two profiles differ only in where an alternative stands.
pub fn moving_back_may_lower_a_score()
    ensures { ((a : Set) (p q : List Entry) (x : ℕ)
        → IsProfileOn a p → IsProfileOn a q → set.contains a x ≡ true → SameBut x p q
        → (s : Score) → score s a p x ≤ℤ score s a q x) → ⊥ }
{}

/// Nor does a lift raise a score of any other alternative.
pub fn no_other_score_rises()
    ensures { (a : Set) (p q : List Entry) (x : ℕ)
        → IsProfileOn a p → IsProfileOn a q → set.contains a x ≡ true → Lifts x p q
        → (s : Score) (y : ℕ) → set.contains a y ≡ true → y ≢ x → score s a q y ≤ℤ score s a p y }
{}

/// Where a lift changes the plurality score of another alternative, that of the lifted one rises: who
/// no longer puts the other first puts the lifted one first. Its Borda score rises where another's
/// changes, and so does its Copeland score.
pub fn changed_score_raises_the_lifted()
    ensures plurality { (a : Set) (p q : List Entry) (x : ℕ)
        → IsProfileOn a p → IsProfileOn a q → set.contains a x ≡ true → Lifts x p q
        → (y : ℕ) → set.contains a y ≡ true → y ≢ x → score Plurality a q y ≢ score Plurality a p y
        → score Plurality a p x <ℤ score Plurality a q x }
    ensures borda { (a : Set) (p q : List Entry) (x : ℕ)
        → IsProfileOn a p → IsProfileOn a q → set.contains a x ≡ true → Lifts x p q
        → (y : ℕ) → set.contains a y ≡ true → y ≢ x → score Borda a q y ≢ score Borda a p y
        → score Borda a p x <ℤ score Borda a q x }
    ensures copeland { (a : Set) (p q : List Entry) (x : ℕ)
        → IsProfileOn a p → IsProfileOn a q → set.contains a x ≡ true → Lifts x p q
        → (y : ℕ) → set.contains a y ≡ true → y ≢ x → score Copeland a q y ≢ score Copeland a p y
        → score Copeland a p x <ℤ score Copeland a q x }
{}

/// By minimax and by the Condorcet score, a lift may change the score of another alternative and leave that of
/// the lifted one as it is. By minimax it does so where 1 is lifted past 2 in the second of the orders 1, 2, 3
/// and 3, 2, 1; by the Condorcet score, where 1 is lifted past 2 in one of two orders 2, 1.
pub fn changed_score_may_leave_the_lifted()
    ensures minimax { ((a : Set) (p q : List Entry) (x : ℕ)
        → IsProfileOn a p → IsProfileOn a q → set.contains a x ≡ true → Lifts x p q
        → (y : ℕ) → set.contains a y ≡ true → y ≢ x → score Minimax a q y ≢ score Minimax a p y
        → score Minimax a p x <ℤ score Minimax a q x) → ⊥ }
    ensures condorcet { ((a : Set) (p q : List Entry) (x : ℕ)
        → IsProfileOn a p → IsProfileOn a q → set.contains a x ≡ true → Lifts x p q
        → (y : ℕ) → set.contains a y ≡ true → y ≢ x → score Condorcet a q y ≢ score Condorcet a p y
        → score Condorcet a p x <ℤ score Condorcet a q x) → ⊥ }
{}

/// Where no alternative has a greater Condorcet score than the one that is lifted, either all keep
/// their Condorcet scores, or the lifted one is the Condorcet winner.
pub fn lifted_leader_by_condorcet_score()
    ensures { (a : Set) (p q : List Entry) (x : ℕ)
        → IsProfileOn a p → IsProfileOn a q → set.contains a x ≡ true → Lifts x p q
        → is_passed (score Condorcet a p) a x ≡ false
        → ((y : ℕ) → set.contains a y ≡ true → score Condorcet a q y ≡ score Condorcet a p y)
        ⊎ IsCondorcetWinner x a q }
{}

/// A lift of a member of a set is a lift also on the profiles restricted to that set.
pub fn restricted_lift()
    ensures { (d : Set) (p q : List Entry) (x : ℕ)
        → set.contains d x ≡ true → Lifts x p q → Lifts x (restrict d p) (restrict d q) }
{}

/// Two profiles that differ only in where one alternative stands are equal when they are restricted to
/// a set without it. The lines can be any, also with orders that no profile takes.
pub fn restriction_without_the_lifted()
    ensures { (d : Set) (p q : List Entry) (x : ℕ)
        → set.contains d x ≡ false → SameBut x p q → restrict d p ≡ restrict d q }
{}

/// The unchanged profile counts as a lift of each alternative.
pub fn unchanged_profile_is_a_lift()
    ensures { (p : List Entry) (x : ℕ) → Lifts x p p }
{}
