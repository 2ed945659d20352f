// The trees of a text, before it is known what they stand for.
ghost use Rattle.std.specs.Prelude.{◌≡◌, ◌==◌, length, slice_get, [], ◌∷◌, ◌++◌, MatchOption, OnOk, OnErr, option_map};
ghost use Rattle.vir_read.specs.RawTrees.{raw_tree, listed};

use std::alloc::{AllocError, Global};

/// A tree of a text before it is known what it stands for. Places are those of the text's bytes.
#[cycle(raw)]
#[derive(Debug, Drop)]
pub enum Raw {
    /// A word, from `start` to before `end`, and the trees in the parentheses behind it. A word without
    /// parentheses has none.
    Word {
        start: u32,
        end: u32,
        parts: RawList,
    },
    /// A number, from `start` to before `end`.
    Number {
        start: u32,
        end: u32,
    },
    /// A list in brackets, whose opening sign is at `start`. Its members are numbers.
    List {
        start: u32,
        members: RawList,
    },
}

/// A list of trees.
#[cycle(raw)]
#[derive(Debug, Drop)]
pub struct RawList {
    trees: Vec<Raw>,
}

impl RawList {
    // No trees.
    pub(crate) fn new(alloc: Global) -> RawList
        ensures { listed result ≡ [] }
    {
        RawList {
            trees: Vec::new(alloc),
        }
    }

    // Appends a tree. Up to sixteen trees a list has room for just as many as it has: most lists of a long text are
    // short, and a text of many has no room to spare.
    pub(crate) fn push(&mut self, raw: Raw) -> Result<(), AllocError>
        ensures pushed { OnOk result (listed self.new ≡ listed self.old ++ raw_tree raw ∷ []) }
        ensures unchanged { OnErr result (listed self.new ≡ listed self.old) }
    {
        if self.trees.len() < 16 {
            self.trees.reserve_exact(1)?;
        }
        self.trees.push(raw)?;
        Ok(())
    }

    // Gives back what memory is left over. Most lists are short, and a long text has many.
    pub(crate) fn shrink(&mut self)
        ensures { listed self.new ≡ listed self.old }
    {
        self.trees.shrink_to_fit();
    }

    /// How many trees there are.
    pub fn len(&self) -> usize
        ensures { result ≡ length (listed self.now) }
    {
        self.trees.len()
    }

    /// Whether there are none.
    pub fn is_empty(&self) -> bool
        ensures { result ≡ (length (listed self.now) == 0) }
    {
        self.trees.is_empty()
    }

    /// The tree at an index, the first one at 0; none exactly where the index isn't below the length.
    pub fn at(&self, i: usize) -> Option<&Raw>
        ensures { option_map (λ raw. raw_tree raw.now) result ≡ slice_get (listed self.now) i }
    {
        self.trees.get(i)
    }

    /// The one tree, where it is one.
    #[tactic(auto, using(crate::proofs::TypingLemmas::one_of, crate::proofs::TypingLemmas::not_gone))]
    pub fn one(&self) -> Option<&Raw>
        ensures { MatchOption result (length (listed self.now) ≡ 1 → ⊥)
            (λ raw. listed self.now ≡ raw_tree raw.now ∷ []) }
    {
        if self.len() != 1 {
            return None;
        }
        let Some(raw) = self.at(0) else {
            return None;
        };
        Some(raw)
    }

    /// The two trees, where these are two.
    #[tactic(auto, using(crate::proofs::TypingLemmas::two_of, crate::proofs::TypingLemmas::not_gone))]
    pub fn two(&self) -> Option<(&Raw, &Raw)>
        ensures { MatchOption result (length (listed self.now) ≡ 2 → ⊥) (λ raws. listed self.now ≡ raw_tree raws.0.now
            ∷ raw_tree raws.1.now ∷ []) }
    {
        if self.len() != 2 {
            return None;
        }
        let Some(first) = self.at(0) else {
            return None;
        };
        let Some(second) = self.at(1) else {
            return None;
        };
        Some((first, second))
    }
}
