// What holds of the numbers of uses. Each law is the contract of a function that does nothing.
ghost use Rattle.std.specs.Prelude.{◌≡◌, ℕ, List};
ghost use Rattle.vir_altset.specs.Sets.{Set};
ghost use Rattle.vir_profile.specs.declared.ballot.Entry.{Entry};
ghost use Rattle.vir_term.specs.declared.leaf.LeafKind.{LeafKind};
ghost use Rattle.vir_term.specs.Tree.{End, Tree, loop};
ghost use Rattle.vir_mean.specs.Meaning.{mean};
ghost use Rattle.vir_machine.specs.Uses.{turn_count, uses};

/// A loop asks for what one turn asks for, and then for what the loop asks for again: no number of turns
/// cuts it short.
pub fn uses_of_a_loop_go_by_turns()
    ensures { (i : ℕ) (served : List (List LeafKind)) (k : End) (body : Tree) (a : Set) (lines : List Entry)
        → uses i served (loop k body) a lines
        ≡ turn_count k (mean body) (uses i served body) (uses i served (loop k body)) a lines }
{}
