// Rules that the table doesn't have, since they aren't sound: each is one of its rows without a premise, or
// about more terms, and comes with a judgement that it would derive and that is false. Each law is the contract
// of a function that does nothing.
ghost use Rattle.std.specs.Prelude.{[], ◌∷◌, codes};
ghost use Rattle.vir_term.specs.declared.leaf.Leaf.TheVariants.{Defer, Max, PassFirst, Plurality};
ghost use Rattle.vir_term.specs.declared.prop.Prop.TheVariants.{Ne, Defers, Nb, Dli, Dimono, Dcc, Cprog, Neut};
ghost use Rattle.vir_term.specs.declared.score.Score.TheVariants.{Minimax, Plurality as FirstPlaces};
ghost use Rattle.vir_term.specs.Tree.{Tree, leaf, par, loop, exactly};
ghost use Rattle.vir_mean.specs.declared.elimination.Elimination.{Elimination};
ghost use Rattle.vir_mean.specs.Eliminators.{eliminator};
ghost use Rattle.vir_mean.specs.Meaning.{mean};
ghost use Rattle.vir_mean.specs.Properties.{Holds};
ghost use Rattle.vir_rules.specs.declared.row.Conclusion.TheVariants.{Has};
ghost use Rattle.vir_rules.specs.declared.row.Family.TheVariants.{Eliminating, Unscored, Winning};
ghost use Rattle.vir_rules.specs.declared.row.Need.TheVariants.{Of};
ghost use Rattle.vir_rules.specs.declared.row.Part.TheVariants.{M, N};
ghost use Rattle.vir_rules.specs.declared.row.Shape.TheVariants.{Loop, LoopOne, ModuleOf, Par};
ghost use Rattle.vir_rules.specs.declared.row.Wanted.TheVariants.{Is};
ghost use Rattle.vir_rules.specs.Table.{rule};
ghost use Rattle.vir_sound.specs.Truth.{IsSoundRow};

/// A loop that is to end with two alternatives leaves both of two, whatever its body does, so it has no
/// `dcc`: `dcc-loop` is about loops that end with one.
pub fn loops_to_two_keep_a_loser()
    ensures judgement { (body : Tree) → Holds Dcc (mean (loop (exactly 2) body)) → ⊥ }
    ensures row { IsSoundRow (rule (codes "dcc-loop") (Has (Is Dcc) Loop) (Of (Is Cprog) M ∷ [])) → ⊥ }
{}

/// Each eliminator by first places rejects a Condorcet winner whom the fewest put first: `cprog-leaf` is
/// about the other scores.
pub fn first_places_reject_winners()
    ensures judgement { (kind : Elimination) → Holds Cprog (eliminator kind FirstPlaces) → ⊥ }
    ensures row { IsSoundRow (rule (codes "cprog-leaf") (Has (Is Cprog) (ModuleOf Eliminating)) []) → ⊥ }
{}

/// By `minimax`, a lift of one leader past another can leave a third one beside it: `dimono-leaf` is about
/// the other scores.
pub fn leaders_by_minimax_may_change()
    ensures judgement { Holds Dimono (mean (leaf (Max Minimax))) → ⊥ }
    ensures row { IsSoundRow (rule (codes "dimono-leaf") (Has (Is Dimono) (ModuleOf Winning)) []) → ⊥ }
{}

/// `par(plurality,defer)` defers the losers, and a lift can make one of them win, though both parts have
/// `dli`: `dli-par` wants them disjoint.
pub fn lifts_of_deferred_losers_matter()
    ensures judgement { Holds Dli (mean (par (leaf Plurality) (leaf Defer))) → ⊥ }
    ensures row { IsSoundRow (rule (codes "dli-par") (Has (Is Dli) Par) (Of (Is Dli) M ∷ Of (Is Dli) N ∷ [])) → ⊥ }
{}

/// `loop(1,defer)` never comes down to one alternative: `defers-loop-one` wants a body that rejects somebody.
pub fn loops_may_go_nowhere()
    ensures judgement { Holds (Defers 1) (mean (loop (exactly 1) (leaf Defer))) → ⊥ }
    ensures row { IsSoundRow (rule (codes "defers-loop-one") (Has (Is (Defers 1)) LoopOne) (Of (Is Ne) M ∷ Of (Is Nb) M
        ∷ []))
        → ⊥ }
{}

/// `pass` and `drop` have an order of their own: `neut-leaf` is about the other modules.
pub fn names_matter_to_fixed_orders()
    ensures judgement { Holds Neut (mean (leaf (PassFirst 1 []))) → ⊥ }
    ensures row { IsSoundRow (rule (codes "neut-leaf") (Has (Is Neut) (ModuleOf Unscored)) []) → ⊥ }
{}
