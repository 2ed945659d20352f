// What holds of positional scores and their eliminators, on every finite set and every profile on it, of
// whatever size. Each law is the contract of a function that does nothing.
ghost use Rattle.std.specs.Prelude.{◌≡◌, true, ℕ, List};
ghost use Rattle.std.specs.FinSet as set;
ghost use Rattle.vir_altset.specs.Sets.{Set};
ghost use Rattle.vir_profile.specs.declared.ballot.Entry.{Entry};
ghost use Rattle.vir_profile.specs.Profiles.{IsProfileOn};
ghost use Rattle.vir_term.specs.declared.prop.Prop.TheVariants.{Ne, Nb, Dmono};
ghost use Rattle.vir_mean.specs.declared.elimination.Elimination.{Elimination};
ghost use Rattle.vir_mean.specs.Properties.{Holds};
ghost use Rattle.vir_mean.specs.Scores.{plurality_score, borda_score};
ghost use Rattle.vir_positional.specs.declared.weight_form.WeightForm.{WeightForm};
ghost use Rattle.vir_positional.specs.declared.weight_form.WeightForm.TheVariants as form;
ghost use Rattle.vir_positional.specs.Positional.{positional, positional_split};
ghost use Rattle.vir_positional.specs.Weights.{IsForm};

/// An eliminator that goes by a positional score elects nobody.
pub fn positional_eliminators_elect_nobody()
    ensures { (kind : Elimination) (kept : WeightForm) → Holds Ne (positional_split kind kept) }
{}

/// Nor does it reject all of a set that has a member.
pub fn positional_eliminators_keep_some()
    ensures { (kind : Elimination) (kept : WeightForm) → Holds Nb (positional_split kind kept) }
{}

/// Whom it defers, it defers still when that alternative is lifted, since no weight is greater than one
/// nearer the front.
pub fn lifted_stays_deferred()
    ensures { (kind : Elimination) (kept : WeightForm) → IsForm kept → Holds Dmono (positional_split kind kept) }
{}

/// By the weights of plurality a member's score is how many voters put it first.
pub fn plurality_by_weights()
    ensures { (a : Set) (p : List Entry) (x : ℕ) → IsProfileOn a p → set.contains a x ≡ true
        → positional form.Plurality a p x ≡ plurality_score p x }
{}

/// By the weights of Borda it is how many voters put it before another member, added up over the other
/// members.
pub fn borda_by_weights()
    ensures { (a : Set) (p : List Entry) (x : ℕ) → IsProfileOn a p → set.contains a x ≡ true
        → positional form.Borda a p x ≡ borda_score a p x }
{}
