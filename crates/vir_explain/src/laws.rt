// What holds of visits. Each law is the contract of a function that does nothing.
ghost use Rattle.std.specs.Prelude.{◌≡◌, ◌<◌, ◌^◌, ℕ, List, [], ◌∷◌, ◌++◌};
ghost use Rattle.std.specs.List.{AllByRecursion};
ghost use Rattle.vir_altset.specs.Sets.{Set, IsBounded};
ghost use Rattle.vir_altset.specs.declared.split.Split.{Split};
ghost use Rattle.vir_profile.specs.declared.ballot.Entry.{Entry};
ghost use Rattle.vir_profile.specs.Profiles.{restrict, total_weight, Votes};
ghost use Rattle.vir_term.specs.Tree.{size, Tree};
ghost use Rattle.vir_mean.specs.Meaning.{mean};
ghost use Rattle.vir_explain.specs.Accounts.{Accounts, AreScored, IsTrueVisit};
ghost use Rattle.vir_explain.specs.Legible.{AreLegible, IsShort};
ghost use Rattle.vir_explain.specs.VisitTexts.{visits_text};
ghost use Rattle.vir_explain.specs.PairTexts.{winner_of, IsWinner};
ghost use Rattle.vir_compile.specs.Calls.{calls_of};
ghost use Rattle.vir_explain.specs.VisitedModules.{modules_of};
ghost use Rattle.vir_explain.specs.Visits.{Visit, visit_of, visits};

/// The last visit is that of the whole term.
pub fn last_visit_is_of_the_whole()
    ensures { (t : Tree) (p : List Entry) (a : Set)
        → (before : List Visit) × (visits 0 t p a ≡ before ++ visit_of 0 t a p ∷ []) }
{}

/// Each visit is what it says: the subterm stands at the place, and the split is its meaning on the set that it is
/// handed, by the ballots restricted to that set; so are the scores.
pub fn visits_are_true()
    ensures { (t : Tree) (p : List Entry) (a : Set) → AllByRecursion (IsTrueVisit t p a) (visits 0 t p a) }
{}

/// The visits of a term account for its meaning: each split follows from the scores that are told with it, or from the
/// splits before it.
pub fn visits_are_an_account()
    ensures accounts { (t : Tree) (p : List Entry) (a : Set) → IsBounded a
        → Accounts 0 t a (visits 0 t p a) (mean t a (restrict a p)) }
    ensures scored { (t : Tree) (p : List Entry) (a : Set) → AreScored p (visits 0 t p a) }
{}

/// Whatever visits account for a split, if their scores are right, the split is what the term means: who checks an
/// account step by step, and its scores on the ballots, has checked the result.
pub fn accounts_are_true()
    ensures { (t : Tree) (p : List Entry) (a : Set) (list : List Visit) (s : Split) → IsBounded a
        → Accounts 0 t a list s → AreScored p list → s ≡ mean t a (restrict a p) }
{}

/// A text of visits of a rule determines them: two lists of visits that a text can be read to tell have the same text
/// only where they are equal.
pub fn texts_determine_visits()
    ensures { (rule : Tree) (one other : List Visit) → AreLegible rule one → AreLegible rule other
        → visits_text one ≡ visits_text other → one ≡ other }
{}

/// The visits of a rule are such, on alternatives and with numbers that a profile can have.
pub fn visits_are_legible()
    ensures { (rule : Tree) (p : List Entry) (a : Set) → IsBounded a → total_weight p < 2 ^ 64 → IsShort (size rule)
        → AreLegible rule (visits 0 rule p a) }
{}

/// The modules that are visited are those that the counting code of the term calls, in the order of its calls.
pub fn visited_modules_are_called()
    ensures { (t : Tree) (p : List Entry) (a : Set)
        → modules_of (visits 0 t p a) ≡ calls_of t a (restrict a p) }
{}

/// The winner that is named is the Condorcet winner, and none is named only where there is none.
pub fn winner_is_the_condorcet_winner()
    ensures { (votes : Votes) → IsWinner votes (winner_of votes) }
{}
