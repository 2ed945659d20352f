// All that can be derived of a term, and the answers about it.
ghost use Rattle.std.specs.Prelude.{◌≡◌, ◌↔◌, IsTrue, IfOk};
ghost use Rattle.either.specs.Either.{is_left};
ghost use Rattle.vir_term.specs.Tree.{tree};
ghost use Rattle.vir_rules.specs.Claims.{claim, of};
ghost use Rattle.vir_rules.specs.Derivations.{Derivable};
ghost use Rattle.vir_derive.specs.Answers.{Answers};
ghost use Rattle.vir_derive.specs.PropsTree.{IsPropsTreeOf};

use crate::answer::JudgementWithProps;
use crate::derivable_props::DerivableProps;
use crate::props_tree::PropsTree;
use either::Either;
use std::alloc::{AllocError, Global};
use vir_rules::{Derivation, Judgement, Prop, Why};
use vir_term::{Leaf, Term};

/// All that can be derived of a term. Asking for many properties takes no longer than finding this once
/// and writing the answers.
#[derive(Drop)]
pub struct Derivations<'a> {
    pub term: &'a Term,
    props: PropsTree,
    ghost its_props: { ∥ IsPropsTreeOf props (tree term.now) ∥₁ },
}

impl<'a> Derivations<'a> {
    /// All that can be derived of the term.
    pub fn of(alloc: Global, term: &'a Term) -> Result<Derivations<'a>, AllocError>
        ensures { IfOk result (λ derivations. derivations.term.now ≡ term.now) }
    {
        let props = PropsTree::of(alloc, term)?;
        Ok(Derivations { term, props })
    }

    /// Whether the term has a derivation of the property.
    pub fn derives(&self, prop: Prop) -> bool
        ensures { IsTrue result ↔ Derivable (of prop (tree self.now.term.now)) }
    {
        self.props.own().has(prop)
    }

    /// The first derivation of the property of the term, or the reasons against it: for each rule that fits
    /// its first premise that can't be derived.
    pub fn derive(
        &self,
        alloc: Global,
        prop: Prop,
    ) -> Result<Either<Derivation, Why<'a>>, AllocError>
        ensures answer { IfOk result (λ answer. Answers answer (of prop (tree self.now.term.now))) }
        ensures derivable { IfOk result (λ answer. IsTrue (is_left answer)
            ↔ Derivable (of prop (tree self.now.term.now))) }
    {
        let judgement = Judgement::Of {
            prop,
            term: self.term,
        };
        let judged = JudgementWithProps {
            judgement,
            props: &self.props,
        };
        judged.answer(alloc)
    }
}

/// The first derivation of a judgement, or the reasons against it: for each rule that fits its first premise
/// that can't be derived. It is a derivation just where the judgement is derivable.
pub fn derive<'a>(
    alloc: Global,
    judgement: Judgement<'a>,
) -> Result<Either<Derivation, Why<'a>>, AllocError>
    ensures answer { IfOk result (λ answer. Answers answer (claim judgement.entry)) }
    ensures derivable { IfOk result (λ answer. IsTrue (is_left answer) ↔ Derivable (claim judgement.entry)) }
{
    match judgement {
        Judgement::Of { prop, term } => Derivations::of(alloc, term)?.derive(alloc, prop),
        Judgement::Disj { .. } => {
            // Disjointness is told by heads alone: this tree is of no term.
            let props = PropsTree::Leaf(DerivableProps::of_leaf(&Leaf::Elect));
            let judged = JudgementWithProps {
                judgement,
                props: &props,
            };
            judged.answer(alloc)
        }
    }
}
