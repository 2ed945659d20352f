// The lists of all terms of each size.
ghost use Rattle.std.specs.Prelude.{◌≡◌, ◌-◌, ◌≤◌, IfOk, ◌++◌, map, length};
ghost use Rattle.vir_term.specs.Tree.{tree, leaf};
ghost use Rattle.vir_synth.specs.Terms.{joins, splits, compositions, next_terms, terms};
ghost use Rattle.vir_synth.specs.Tables.{of_one, of_two};
ghost use Rattle.vir_synth.specs.Lists.{trees, terms_at, listing};

use crate::form::{Joint, Single};
use crate::terms_of_size::Terms;
use std::alloc::{AllocError, Global};
use vir_term::{Leaf, Term};

// Puts the composition of each of these terms behind the list.
fn push_each(
    list: &mut Vec<Term>,
    alloc: Global,
    form: Single,
    parts: &[Term],
) -> Result<(), AllocError>
    ensures { IfOk result (λ _. trees list.new.items ≡ trees list.old.items ++ map (of_one form) (trees parts.now)) }
{
    for part in parts {
        let term = form.term(alloc, part)?;
        list.push(term)?;
    }
    Ok(())
}

// Puts the composition of a first term with each of these second ones behind the list.
fn push_with(
    list: &mut Vec<Term>,
    alloc: Global,
    form: Joint,
    first: &Term,
    seconds: &[Term],
) -> Result<(), AllocError>
    ensures { IfOk result (λ _.
        trees list.new.items ≡ trees list.old.items ++ map (of_two form (tree first.now)) (trees seconds.now)) }
{
    for second in seconds {
        let term = form.term(alloc, first, second)?;
        list.push(term)?;
    }
    Ok(())
}

// Puts the composition of each of the first terms with each of the second ones behind the list.
fn push_joins(
    list: &mut Vec<Term>,
    alloc: Global,
    form: Joint,
    firsts: &[Term],
    seconds: &[Term],
) -> Result<(), AllocError>
    ensures { IfOk result (λ _.
        trees list.new.items ≡ trees list.old.items ++ joins (of_two form) (trees firsts.now) (trees seconds.now)) }
{
    for first in firsts {
        push_with(list, alloc, form, first, seconds)?;
    }
    Ok(())
}

// Puts the compositions of two terms behind the list whose sizes add up to the greatest size so far.
fn push_splits(
    list: &mut Vec<Term>,
    alloc: Global,
    form: Joint,
    sizes: &[Vec<Term>],
) -> Result<(), AllocError>
    requires { 1 ≤ length sizes.now }
    ensures { IfOk result (λ _. trees list.new.items
        ≡ trees list.old.items ++ splits (of_two form) (terms_at sizes.now) 1 (length sizes.now - 1)) }
{
    let count = sizes.len();
    for left in 1..count {
        push_joins(
            list,
            alloc,
            form,
            &sizes[left - 1],
            &sizes[count - left - 1],
        )?;
    }
    Ok(())
}

// Puts all compositions behind the list that are by one greater than the greatest size so far.
fn push_compositions(
    list: &mut Vec<Term>,
    alloc: Global,
    sizes: &[Vec<Term>],
) -> Result<(), AllocError>
    requires { 1 ≤ length sizes.now }
    ensures { IfOk result (λ _.
        trees list.new.items ≡ trees list.old.items ++ compositions (terms_at sizes.now) (length sizes.now)) }
{
    let last = &sizes[sizes.len() - 1];
    push_each(list, alloc, Single::Rev, last)?;
    push_each(list, alloc, Single::LoopOne, last)?;
    push_splits(list, alloc, Joint::Seq, sizes)?;
    push_splits(list, alloc, Joint::Par, sizes)
}

// Puts these modules behind the list.
fn push_leaves(list: &mut Vec<Term>, alloc: Global, modules: &[Leaf]) -> Result<(), AllocError>
    ensures { IfOk result (λ _. trees list.new.items ≡ trees list.old.items ++ map leaf modules.now) }
{
    for module in modules {
        let module = module.copy(alloc)?;
        list.push(Term::Leaf(module))?;
    }
    Ok(())
}

// The terms of one size more.
pub(crate) fn next_list(
    alloc: Global,
    leaves: &[Leaf],
    sizes: &[Vec<Term>],
) -> Result<Vec<Term>, AllocError>
    ensures { IfOk result (λ list. trees list.items ≡ next_terms leaves.now (terms_at sizes.now) (length sizes.now)) }
{
    let mut list = Vec::new(alloc);
    if sizes.is_empty() {
        push_leaves(&mut list, alloc, leaves)?;
    } else {
        push_compositions(&mut list, alloc, sizes)?;
    }
    Ok(list)
}

/// The terms of this size that are composed of these modules, in order, each as often as the modules that
/// make it are listed. There are none of size 0.
pub fn terms(alloc: Global, leaves: &[Leaf], size: u32) -> Result<Terms, AllocError>
    ensures { IfOk result (λ found. listing found ≡ terms leaves.now size) }
{
    let mut sizes: Vec<Vec<Term>> = Vec::new(alloc);
    for _ in 0..size {
        let list = next_list(alloc, leaves, &sizes)?;
        sizes.push(list)?;
    }
    match sizes.pop() {
        Some(list) => Ok(Terms { list }),
        None => Ok(Terms {
            list: Vec::new(alloc),
        }),
    }
}
