// What holds of meanings on profiles of every size. Each law is the contract of a function that does nothing.
ghost use Rattle.std.specs.Prelude.{◌≡◌, true, ℕ, ◌+◌, ◌≤◌, List, [], ◌∷◌, ◌++◌};
ghost use Rattle.std.specs.FinSet as set;
ghost use Rattle.vir_altset.specs.Sets.{Set};
ghost use Rattle.vir_altset.specs.Splits.{IsSplitOf};
ghost use Rattle.vir_profile.specs.declared.ballot.Entry.{Entry};
ghost use Rattle.vir_term.specs.declared.leaf.Leaf.TheVariants.{PassFirst};
ghost use Rattle.vir_term.specs.declared.prop.Prop.TheVariants.{Defers, Neut};
ghost use Rattle.vir_term.specs.Tree.{End, Tree, leaf, loop, exactly, at_most};
ghost use Rattle.vir_mean.specs.Modules.{Meaning, all_deferred, first_passed};
ghost use Rattle.vir_profile.specs.Elections.{IsElection};
ghost use Rattle.vir_mean.specs.Neutrality.{IsRenaming, renamed_set, renamed_lines, renamed_split};
ghost use Rattle.vir_mean.specs.Compositions.{turn};
ghost use Rattle.vir_mean.specs.Meaning.{mean};
ghost use Rattle.vir_mean.specs.Properties.{Holds};

/// The meaning of each term splits each set: no alternative is in two of the three sets, and together
/// they are the whole set.
pub fn meanings_are_splits()
    ensures { (t : Tree) (a : Set) (lines : List Entry) → IsSplitOf a (mean t a lines) }
{}

/// On no alternatives each term gives three empty sets.
pub fn nothing_is_split_into_nothing()
    ensures { (t : Tree) (lines : List Entry)
        → mean t set.empty lines ≡ record { elected = set.empty; rejected = set.empty; deferred = set.empty } }
{}

/// A loop, of either kind, is one turn, and then the loop again: no number of turns cuts it short.
pub fn loop_goes_by_turns()
    ensures { (k : End) (body : Tree) (a : Set) (lines : List Entry)
        → mean (loop k body) a lines ≡ turn k (mean body) (mean (loop k body)) a lines }
{}

/// A loop leaves a set of as many alternatives as it is to end with as it is.
pub fn loop_of_k_alternatives_stops()
    ensures { (k : ℕ) (body : Tree) (a : Set) (lines : List Entry)
        → set.len a ≡ k → mean (loop (exactly k) body) a lines ≡ all_deferred a lines }
{}

/// And one that is to end with that many or fewer leaves a set of that many or fewer as it is.
pub fn until_of_few_alternatives_stops()
    ensures { (k : ℕ) (body : Tree) (a : Set) (lines : List Entry)
        → set.len a ≤ k → mean (loop (at_most k) body) a lines ≡ all_deferred a lines }
{}

/// A loop may defer fewer alternatives than it is to end with: a turn that leaves out more than one goes
/// past that number, as `pass(1)` does on three alternatives where two are to be left.
pub fn loop_may_stop_below_its_number()
    ensures { Holds (Defers 2) (mean (loop (exactly 2) (leaf (PassFirst 1 [])))) → ⊥ }
{}

/// The alternatives of an election are numbers from 1 on.
pub fn alternatives_are_numbers_from_1_on()
    ensures { (a : Set) (p : List Entry) (x : ℕ) → IsElection a p → set.contains a x ≡ true → 1 ≤ x }
{}

/// Where an election's alternatives get other names, from 1 on, it is an election still.
pub fn renamed_elections_are_elections()
    ensures { (f : ℕ → ℕ) (a : Set) (p : List Entry) → IsElection a p → IsRenaming f a
        → IsElection (renamed_set f a) (renamed_lines f p) }
{}

/// A module with a fixed order of its own isn't neutral: `pass(1)` passes 1 of 1 and 2, under whatever names.
pub fn passing_is_not_neutral()
    ensures { Holds Neut (first_passed 1 []) → ⊥ }
{}

/// The new names may be numbers that aren't in the set, and `neut` speaks of these too. Some meaning does what it
/// asks with each renaming of a set onto itself, and doesn't have it: say that all are elected where 1 is among
/// them, and deferred where it isn't, and that 1 becomes 2.
pub fn new_names_may_be_other_numbers()
    ensures { (m : Meaning) × ((a : Set) (p : List Entry) (f : ℕ → ℕ) → IsElection a p → IsRenaming f a
        → renamed_set f a ≡ a → m (renamed_set f a) (renamed_lines f p) ≡ renamed_split f (m a p))
        × (Holds Neut m → ⊥) }
{}

/// A line of a profile may be split into two with the same order, whose weights add up to that of the
/// line: how the voters of an order are spread over lines makes no difference to what a rule does.
pub fn line_may_be_split()
    ensures { (t : Tree) (a : Set) (p q : List Entry) (v w : ℕ) (o : List ℕ)
        → mean t a (p ++ record { weight = v + w; order = o } ∷ q)
        ≡ mean t a (p ++ record { weight = v; order = o } ∷ record { weight = w; order = o } ∷ q) }
{}
