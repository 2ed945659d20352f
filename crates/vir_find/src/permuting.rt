// The orders of the alternatives from 1 to a number.
ghost use Rattle.std.specs.Prelude.{◌≡◌, ◌∷◌, ◌++◌, not, nat_eq, map, IfOk, OnOk};
ghost use Rattle.vir_mean.specs.Lifts.{without};
ghost use Rattle.vir_find.specs.OrderLists.{lists_in};
ghost use Rattle.vir_find.specs.Permutations.{up_to, permutations, orders};

use std::alloc::{AllocError, Global};

// Whether they differ.
fn is_other(x: u16, y: u16) -> bool
    ensures { result ≡ not (nat_eq x y) }
{
    x != y
}

// The members other than x.
fn members_without(alloc: Global, x: u16, members: &[u16]) -> Result<Vec<u16>, AllocError>
    ensures { IfOk result (λ rest. rest.items ≡ without x members.now) }
{
    let mut rest = Vec::new(alloc);
    for y in members {
        if is_other(x, *y) {
            rest.push(*y)?;
        }
    }
    Ok(rest)
}

// The order with x in front.
fn in_front(alloc: Global, x: u16, rest: &[u16]) -> Result<Vec<u16>, AllocError>
    ensures { IfOk result (λ order. order.items ≡ x ∷ rest.now) }
{
    let mut order = Vec::new(alloc);
    order.push(x)?;
    for y in rest {
        order.push(*y)?;
    }
    Ok(order)
}

// Puts each of these orders with x in front behind the list.
fn push_in_front(
    list: &mut Vec<Vec<u16>>,
    alloc: Global,
    x: u16,
    rests: &[Vec<u16>],
) -> Result<(), AllocError>
    ensures { IfOk result (λ _. lists_in list.new.items
        ≡ lists_in list.old.items ++ map (λ rest. x ∷ rest) (lists_in rests.now)) }
{
    for rest in rests {
        let order = in_front(alloc, x, rest)?;
        list.push(order)?;
    }
    Ok(())
}

// The orders of so many of these members.
fn permuted(alloc: Global, k: u16, members: &[u16]) -> Result<Vec<Vec<u16>>, AllocError>
    ensures { IfOk result (λ list. lists_in list.items ≡ permutations k members.now) }
{
    let mut list = Vec::new(alloc);
    if k == 0 {
        list.push(Vec::new(alloc))?;
        return Ok(list);
    }
    for x in members {
        let rest = members_without(alloc, *x, members)?;
        let rests = permuted(alloc, k - 1, &rest)?;
        push_in_front(&mut list, alloc, *x, &rests)?;
    }
    Ok(list)
}

// The numbers from 1 to m.
fn numbers_up_to(alloc: Global, m: u16) -> Result<Vec<u16>, AllocError>
    ensures { IfOk result (λ numbers. numbers.items ≡ up_to m) }
{
    let mut numbers = Vec::new(alloc);
    for x in 0..m {
        numbers.push(x + 1)?;
    }
    Ok(numbers)
}

/// The orders of the alternatives from 1 to m, the lexicographically first one first.
pub(crate) fn all_orders(alloc: Global, m: u16) -> Result<Vec<Vec<u16>>, AllocError>
    ensures { IfOk result (λ list. lists_in list.items ≡ orders m) }
{
    let numbers = numbers_up_to(alloc, m)?;
    permuted(alloc, m, &numbers)
}
