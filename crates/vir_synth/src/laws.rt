// Which terms there are of each size, in which order, and that one of them is the first with wanted properties. Each
// law is the contract of a function that does nothing.
ghost use Rattle.std.specs.Prelude.{◌≡◌, ◌+◌, ◌-◌, ◌++◌, ℕ, List, Option, map};
ghost use Rattle.std.specs.List.{flat_map, range_with_len};
ghost use Rattle.vir_term.specs.declared.prop.Prop.{Prop};
ghost use Rattle.vir_term.specs.Tree.{Tree, leaf, rev, loop, exactly, seq, par};
ghost use Rattle.vir_term.specs.declared.leaf.Leaf.{Leaf};
ghost use Rattle.vir_synth.specs.Firsts.{IsFirstWith};
ghost use Rattle.vir_synth.specs.Terms.{terms, terms_up_to, splits};

/// The terms of size 1 are the modules, as often as they are listed. Those of each greater size are, in this
/// order: the revisions and the loops of the terms that are smaller by one; the sequential compositions, and
/// then the parallel ones, of two terms whose sizes make that size less one: by the size of the first of
/// them, the smallest first; then by the first of them, and then by the second, each in its order. The terms up to a
/// size are those of each size, the smallest first.
pub fn terms_are_composed()
    ensures ones { (leaves : List Leaf) → terms leaves 1 ≡ map leaf leaves }
    ensures compositions { (leaves : List Leaf) → (n : ℕ) → terms leaves (n + 2)
        ≡ map rev (terms leaves (n + 1)) ++ map (loop (exactly 1)) (terms leaves (n + 1))
        ++ splits seq (terms leaves) 1 n ++ splits par (terms leaves) 1 n }
    ensures sizes { (op : Tree → Tree → Tree) (at : ℕ → List Tree) (n : ℕ) → splits op at 1 n
        ≡ flat_map (λ size. flat_map (λ first. map (op first) (at (n + 1 - size))) (at size)) (range_with_len 1 n) }
    ensures up_to { (leaves : List Leaf) → (n : ℕ)
        → terms_up_to leaves (n + 1) ≡ terms_up_to leaves n ++ terms leaves (n + 1) }
{}

/// One term is the first with wanted properties, or none is: there are no two answers.
pub fn first_with_properties_is_unique()
    ensures { (props : List Prop) (terms : List Tree) (found other : Option Tree)
        → IsFirstWith props terms found → IsFirstWith props terms other → found ≡ other }
{}
