// What holds of the equations. Each law is the contract of a function that does nothing.
ghost use Rattle.std.specs.Prelude.{◌≡◌, ◌+◌, ◌≤◌, ℕ, List, Some, All, Contains, length};
ghost use Rattle.vir_term.specs.Tree.{Tree, rev, seq, par, loop, exactly, at_most, size};
ghost use Rattle.vir_mean.specs.Meaning.{mean};
ghost use Rattle.vir_simplify.specs.Equations.{elect, defer, plurality, nobody, sides, Shrinks, shrinking};
ghost use Rattle.vir_simplify.specs.Meanings.{MeanTheSame};
ghost use Rattle.vir_simplify.specs.Places.{subterm_at, places};
ghost use Rattle.vir_simplify.specs.Steps.{Takes, IsIrreducible, Simplifies, Replays};

use crate::equation::Equation;
use crate::step::Step;

/// Where all alternatives are deferred first, the second rule decides on all of them.
pub fn seq_defer_left()
    ensures { (m : Tree) → MeanTheSame (seq defer m) m }
{}

/// Deferring what a rule defers changes nothing.
pub fn seq_defer_right()
    ensures { (m : Tree) → mean (seq m defer) ≡ mean m }
{}

/// Where all are elected, nothing is left for a second rule.
pub fn seq_elect()
    ensures { (m : Tree) → mean (seq elect m) ≡ mean elect }
{}

/// Nor after `plurality`, which elects or rejects everybody.
pub fn seq_plurality()
    ensures { (m : Tree) → mean (seq plurality m) ≡ mean plurality }
{}

/// Nor where all are rejected.
pub fn seq_nobody()
    ensures { (m : Tree) → mean (seq nobody m) ≡ mean nobody }
{}

/// Where all are elected, their revision defers all.
pub fn rev_elect()
    ensures { mean (rev elect) ≡ mean defer }
{}

/// A revision elects nobody, so the revision of a revision rejects all.
pub fn rev_rev()
    ensures { (m : Tree) → mean (rev (rev m)) ≡ mean nobody }
{}

/// A rule in parallel with itself says what it says alone.
pub fn par_same()
    ensures { (m : Tree) → mean (par m m) ≡ mean m }
{}

/// Beside a rule that elects all, another one changes nothing.
pub fn par_elect_left()
    ensures { (m : Tree) → mean (par elect m) ≡ mean elect }
{}

/// The same where it stands first.
pub fn par_elect_right()
    ensures { (m : Tree) → mean (par m elect) ≡ mean elect }
{}

/// A rule that rejects all changes nothing of what another one says.
pub fn par_nobody_left()
    ensures { (m : Tree) → mean (par nobody m) ≡ mean m }
{}

/// The same where it stands second.
pub fn par_nobody_right()
    ensures { (m : Tree) → mean (par m nobody) ≡ mean m }
{}

/// A loop over a rule that defers all ends at once.
pub fn loop_defer()
    ensures { (k : ℕ) → mean (loop (exactly k) defer) ≡ mean defer }
{}

/// A loop leaves what it has left, so a loop over it that ends at the same number does nothing more.
pub fn loop_loop()
    ensures { (k : ℕ) (m : Tree) → MeanTheSame (loop (exactly k) (loop (exactly k) m)) (loop (exactly k) m) }
{}

/// So does one that ends at so many alternatives or fewer.
pub fn until_defer()
    ensures { (k : ℕ) → mean (loop (at_most k) defer) ≡ mean defer }
{}

/// The same of loops that end at so many alternatives or fewer.
pub fn until_until()
    ensures { (k : ℕ) (m : Tree) → MeanTheSame (loop (at_most k) (loop (at_most k) m)) (loop (at_most k) m) }
{}

/// How three rules in a row are put together makes no difference.
pub fn seq_assoc_right()
    ensures { (m n t : Tree) → mean (seq (seq m n) t) ≡ mean (seq m (seq n t)) }
{}

/// The same, read the other way round.
pub fn seq_assoc_left()
    ensures { (m n t : Tree) → mean (seq m (seq n t)) ≡ mean (seq (seq m n) t) }
{}

/// The two sides of each equation mean the same.
pub fn equations_are_true()
    ensures { (e : Equation) (m n t : Tree) (k : ℕ) → MeanTheSame (sides e m n t k).left (sides e m n t k).right }
{}

/// All equations but the last two make a term smaller, and no deeper.
pub fn most_equations_make_terms_smaller()
    ensures { All Shrinks shrinking }
{}

/// A step keeps the meaning, whatever the place and the equation.
pub fn steps_keep_the_meaning()
    ensures { (e : Equation) (place : ℕ) (t u : Tree) → Takes e place t u → MeanTheSame t u }
{}

/// Steps lead to one term, or to none.
pub fn replay_is_unique()
    ensures { (t u v : Tree) (steps : List Step) → Replays t steps u → Replays t steps v → u ≡ v }
{}

/// Simplification ends in a term where no equation that makes it smaller fits, after fewer steps than the first
/// term has modules and compositions.
pub fn simplification_ends()
    ensures irreducible { (t u : Tree) (steps : List Step) → Simplifies t steps u → IsIrreducible u }
    ensures few { (t u : Tree) (steps : List Step) → Simplifies t steps u → length steps + size u ≤ size t }
{}

/// A term is simplified in one way.
pub fn simplification_is_unique()
    ensures { (t u v : Tree) (steps others : List Step) → Simplifies t steps u → Simplifies t others v
        → (steps ≡ others) × (u ≡ v) }
{}

/// The numbers of places in postorder are those of the subterms in preorder, and each subterm has its place.
pub fn places_are_numbered_in_preorder()
    ensures numbered { (t : Tree) → All (λ place. subterm_at t place.number ≡ Some place.subterm) (places t) }
    ensures all { (t old : Tree) (i : ℕ) → subterm_at t i ≡ Some old
        → Contains (places t) (record { number = i; subterm = old }) }
{}
