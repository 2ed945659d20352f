// What the scores of a Condorcet winner are like, on profiles of every size.
ghost use Rattle.std.specs.Prelude.{◌≡◌, ◌≢◌, ℕ, ◌≤◌, true, List, ◌<ℤ◌};
ghost use Rattle.std.specs.FinSet as set;
ghost use Rattle.vir_altset.specs.Sets.{Set};
ghost use Rattle.vir_profile.specs.declared.ballot.Entry.{Entry};
ghost use Rattle.vir_profile.specs.Profiles.{IsProfileOn};
ghost use Rattle.vir_profile.specs.Winners.{IsCondorcetWinner};
ghost use Rattle.vir_term.specs.declared.score.Score.TheVariants.{Borda, Copeland, Minimax, Condorcet};
ghost use Rattle.vir_mean.specs.Scores.{score};
ghost use Rattle.vir_mean.specs.Eliminators.{sum_of, scaled};

/// Among two alternatives or more, a Condorcet winner has a Borda score above the average. It needn't
/// have the greatest.
pub fn condorcet_winner_is_above_the_borda_average()
    ensures { (a : Set) (p : List Entry) (w : ℕ)
        → IsProfileOn a p → IsCondorcetWinner w a p → 2 ≤ set.len a
        → sum_of (score Borda a p) a <ℤ scaled (score Borda a p) a w }
{}

/// Each other alternative has a lower Copeland, minimax and Condorcet score than a Condorcet winner.
pub fn condorcet_winner_leads()
    ensures copeland { (a : Set) (p : List Entry) (w : ℕ)
        → IsProfileOn a p → IsCondorcetWinner w a p
        → (y : ℕ) → set.contains a y ≡ true → y ≢ w
        → score Copeland a p y <ℤ score Copeland a p w }
    ensures minimax { (a : Set) (p : List Entry) (w : ℕ)
        → IsProfileOn a p → IsCondorcetWinner w a p
        → (y : ℕ) → set.contains a y ≡ true → y ≢ w
        → score Minimax a p y <ℤ score Minimax a p w }
    ensures condorcet { (a : Set) (p : List Entry) (w : ℕ)
        → IsProfileOn a p → IsCondorcetWinner w a p
        → (y : ℕ) → set.contains a y ≡ true → y ≢ w
        → score Condorcet a p y <ℤ score Condorcet a p w }
{}
