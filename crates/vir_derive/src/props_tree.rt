// What is derivable of a term and of each of its parts.
ghost use Rattle.std.specs.Prelude.{◌≡◌, IfOk};
ghost use Rattle.vir_term.specs.Tree.{tree};
ghost use Rattle.vir_rules.specs.Forms.{form_seen};
ghost use Rattle.vir_derive.specs.PropsTree.{own_props, first_tree, second_tree, IsPropsTreeOf, JoinsOne, JoinsTwo};

use crate::derivable_props::DerivableProps;
use crate::head::are_opposed;
use std::alloc::{AllocError, Global};
use vir_rules::Form;
use vir_term::Term;

/// What is derivable of a term and of each of its parts, composed as the term is.
#[derive(Drop)]
pub enum PropsTree {
    /// Of a module.
    Leaf(DerivableProps),
    /// Of a term with one part.
    One(DerivableProps, Box<PropsTree>),
    /// Of a term with two parts.
    Two(DerivableProps, Box<PropsTree>, Box<PropsTree>),
}

impl PropsTree {
    /// What is derivable of the whole term.
    pub fn own(&self) -> &DerivableProps
        ensures { result.now ≡ own_props self.now }
    {
        match self {
            PropsTree::Leaf(own) | PropsTree::One(own, _) | PropsTree::Two(own, _, _) => own,
        }
    }

    /// The tree of the first part; that of a module is its own.
    pub fn first(&self) -> &PropsTree
        ensures { result.now ≡ first_tree self.now }
    {
        match self {
            PropsTree::Leaf(_) => self,
            PropsTree::One(_, part) => part,
            PropsTree::Two(_, first, _) => first,
        }
    }

    /// The tree of the second part; where there is one part, of that one.
    pub fn second(&self) -> &PropsTree
        ensures { result.now ≡ second_tree self.now }
    {
        match self {
            PropsTree::Leaf(_) => self,
            PropsTree::One(_, part) => part,
            PropsTree::Two(_, _, second) => second,
        }
    }

    /// The tree of a term, from its modules up: what is derivable of each part is found once.
    pub fn of(alloc: Global, term: &Term) -> Result<PropsTree, AllocError>
        ensures { IfOk result (λ props. IsPropsTreeOf props (tree term.now)) }
    {
        match term {
            Term::Leaf(leaf) => Ok(PropsTree::Leaf(DerivableProps::of_leaf(leaf))),
            Term::Rev(part) | Term::Loop { body: part, .. } | Term::Until { body: part, .. } => {
                let part = PropsTree::of(alloc, part)?;
                PropsTree::join_one(alloc, Form::of(term), part)
            }
            Term::Seq(first, second) | Term::Par(first, second) => {
                let opposed = are_opposed(first, second);
                let first = PropsTree::of(alloc, first)?;
                let second = PropsTree::of(alloc, second)?;
                PropsTree::join_two(alloc, Form::of(term), first, second, opposed)
            }
        }
    }

    // The tree of a term of this form, from those of its one part.
    fn join_one(alloc: Global, form: Form, part: PropsTree) -> Result<PropsTree, AllocError>
        ensures { IfOk result (JoinsOne (form_seen form.entry) part) }
    {
        let inner = *part.own();
        let own = DerivableProps::of_parts(form, inner, inner, false);
        Ok(PropsTree::One(own, Box::new(alloc, part)?))
    }

    // The tree of a term of this form, from those of its two parts and whether their heads are opposed.
    fn join_two(
        alloc: Global,
        form: Form,
        first: PropsTree,
        second: PropsTree,
        opposed: bool,
    ) -> Result<PropsTree, AllocError>
        ensures { IfOk result (JoinsTwo (form_seen form.entry) first second opposed) }
    {
        let own = DerivableProps::of_parts(form, *first.own(), *second.own(), opposed);
        let first = Box::new(alloc, first)?;
        let second = Box::new(alloc, second)?;
        Ok(PropsTree::Two(own, first, second))
    }
}
