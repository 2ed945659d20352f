// The heads that signatures keep.
ghost use Rattle.std.specs.Prelude.{◌≡◌, IfOk};
ghost use Rattle.vir_derive.specs.Heads.{leaf_head, opposed};
ghost use Rattle.vir_derive.specs.KeptHeads.{head_seen};

use std::alloc::{AllocError, Global};
use vir_term::{FixedOrder, Leaf};

// A `pass` or a `drop`.
#[derive(Debug, PartialEq, Eq, Hash, Drop)]
pub(crate) struct Head {
    pub(crate) passes: bool,
    pub(crate) k: u32,
    pub(crate) order: Vec<u16>,
}

// What an order lists.
fn order_list(alloc: Global, order: &FixedOrder) -> Result<Vec<u16>, AllocError>
    ensures { IfOk result (λ list. list.items ≡ order.now) }
{
    let mut list = Vec::new(alloc);
    for i in 0..order.len() {
        list.push(order.at(i))?;
    }
    Ok(list)
}

// The head of a module.
pub(crate) fn head_of(alloc: Global, leaf: &Leaf) -> Result<Option<Head>, AllocError>
    ensures { IfOk result (λ head. head_seen head ≡ leaf_head leaf.now) }
{
    match leaf {
        Leaf::PassFirst { k, order } => Ok(Some(Head {
            passes: true,
            k: *k,
            order: order_list(alloc, order)?,
        })),
        Leaf::DropFirst { k, order } => Ok(Some(Head {
            passes: false,
            k: *k,
            order: order_list(alloc, order)?,
        })),
        _ => Ok(None),
    }
}

// The same head.
pub(crate) fn copy_of(alloc: Global, head: &Option<Head>) -> Result<Option<Head>, AllocError>
    ensures { IfOk result (λ copy. head_seen copy ≡ head_seen head.now) }
{
    match head {
        Some(head) => Ok(Some(Head {
            passes: head.passes,
            k: head.k,
            order: Vec::from_slice(alloc, &head.order)?,
        })),
        None => Ok(None),
    }
}

// Whether one is a `pass` and the other a `drop`, of one number and one order.
pub(crate) fn oppose(left: &Option<Head>, right: &Option<Head>) -> bool
    ensures { result ≡ opposed (head_seen left.now) (head_seen right.now) }
{
    let (Some(left), Some(right)) = (left, right) else {
        return false;
    };
    left.passes != right.passes && left.k == right.k && left.order == right.order
}
