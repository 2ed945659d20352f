// What holds of splits. Each law is the contract of a function that does nothing.
ghost use Rattle.std.specs.Prelude.{◌≡◌, ◌+◌};
ghost use Rattle.std.specs.FinSet as set;
ghost use Rattle.vir_altset.specs.Sets.{Set};
ghost use Rattle.vir_altset.specs.Splits.{IsSplitOf};
ghost use Rattle.vir_altset.specs.declared.split.Split.{Split};

/// A law, and no work: the sizes of the three sets of a split add up to the size of the set.
pub fn split_sizes()
    ensures { (a : Set) (s : Split) → IsSplitOf a s → set.len s.elected + set.len s.rejected + set.len s.deferred
        ≡ set.len a }
{}

/// A law, and no work: a split of a set and a split of what it defers make one split of the set,
/// which defers what the second defers.
pub fn split_join()
    ensures { (a : Set) (s t : Split) → IsSplitOf a s → IsSplitOf s.deferred t
        → IsSplitOf a (record {
          elected = set.union s.elected t.elected;
          rejected = set.union s.rejected t.rejected;
          deferred = t.deferred;
        }) }
{}
