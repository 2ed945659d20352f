// The modules that are taken where the words name none.
ghost use Rattle.std.specs.Prelude.{◌≡◌, [], IfOk};
ghost use Rattle.vir_words.specs.WordLeaves.{default_leaves};

use std::alloc::{AllocError, Global};
use vir_term::{FixedOrder, Leaf, Score};

// The order of the numbers.
fn no_order(alloc: Global) -> FixedOrder
    ensures { result ≡ [] }
{
    match FixedOrder::of(Vec::new(alloc)) {
        Ok(order) => order,
        Err(_) => unreachable!(),
    }
}

// The first so many in the order of the numbers, passed.
fn pass(alloc: Global, k: u32) -> Leaf
    ensures { result ≡ Leaf.PassFirst k [] }
{
    Leaf::PassFirst {
        k,
        order: no_order(alloc),
    }
}

// The same, dropped.
fn drop_first(alloc: Global, k: u32) -> Leaf
    ensures { result ≡ Leaf.DropFirst k [] }
{
    Leaf::DropFirst {
        k,
        order: no_order(alloc),
    }
}

/// The 27 modules that are taken where the words name none: those without a score, with the numbers 1 and
/// 2, and each eliminator by each score.
#[tactic(auto, unfolding(crate::specs::WordLeaves::default_leaves))]
pub fn default_leaves(alloc: Global) -> Result<Vec<Leaf>, AllocError>
    ensures { IfOk result (λ list. list.items ≡ default_leaves) }
{
    Ok(vec![in alloc;
        Leaf::Elect,
        Leaf::Defer,
        pass(alloc, 1),
        pass(alloc, 2),
        drop_first(alloc, 1),
        drop_first(alloc, 2),
        Leaf::Plurality,
        Leaf::Max(Score::Plurality),
        Leaf::Max(Score::Borda),
        Leaf::Max(Score::Copeland),
        Leaf::Max(Score::Minimax),
        Leaf::Max(Score::Condorcet),
        Leaf::Min(Score::Plurality),
        Leaf::Min(Score::Borda),
        Leaf::Min(Score::Copeland),
        Leaf::Min(Score::Minimax),
        Leaf::Min(Score::Condorcet),
        Leaf::Below(Score::Plurality),
        Leaf::Below(Score::Borda),
        Leaf::Below(Score::Copeland),
        Leaf::Below(Score::Minimax),
        Leaf::Below(Score::Condorcet),
        Leaf::Upto(Score::Plurality),
        Leaf::Upto(Score::Borda),
        Leaf::Upto(Score::Copeland),
        Leaf::Upto(Score::Minimax),
        Leaf::Upto(Score::Condorcet),
    ]?)
}
