// The first derivation of a judgement, or the reasons against it.
ghost use Rattle.std.specs.Prelude.{◌≡◌, ◌↔◌, ℕ, List, Some, None, IsTrue, IfOk, IfSome, MatchOption, option_map};
ghost use Rattle.std.specs.Prelude.{slice_get};
ghost use Rattle.std.specs.Option.{option_and_then};
ghost use Rattle.vir_rules.specs.Claims.{Claim};
ghost use Rattle.vir_rules.specs.Derivations.{Derivable, AllDerivable, Fails, IsFirst};
ghost use Rattle.vir_rules.specs.Premises.{premises, row_of};
ghost use Rattle.vir_rules.specs.Reasons.{AreReasons, IsReasonOf, reason_seen, reasons_seen};
ghost use Rattle.vir_rules.specs.RuleTrees.{rule_tree};
ghost use Rattle.vir_derive.specs.Answers.{Answers};
ghost use Rattle.vir_derive.specs.Judged.{claim_of, HasItsProps, tree_for, AreChildren};

use crate::head::are_opposed;
use crate::props_tree::PropsTree;
use either::Either;
use std::alloc::{AllocError, Global};
use vir_rules::{
    Children, Derivation, Judgement, Need, Part, RuleId, Why, WhyLine, need_at, premise,
    premise_count,
};

// A judgement beside what is derivable of its term and of the parts of this.
#[derive(Clone, Copy)]
pub(crate) struct JudgementWithProps<'a, 'm> {
    pub(crate) judgement: Judgement<'a>,
    pub(crate) props: &'m PropsTree,
}

impl<'a, 'm> JudgementWithProps<'a, 'm> {
    // The first derivation, or the reasons against the judgement.
    pub(crate) fn answer(self, alloc: Global) -> Result<Either<Derivation, Why<'a>>, AllocError>
        requires { HasItsProps self }
        ensures { IfOk result (λ answer. Answers answer (claim_of self.entry)) }
    {
        if self.is_derivable() {
            let derivation = self.first(alloc)?;
            return Ok(Either::Left(derivation));
        }
        let why = self.reasons(alloc)?;
        Ok(Either::Right(why))
    }

    // Whether the judgement is derivable.
    fn is_derivable(self) -> bool
        requires { HasItsProps self }
        ensures { IsTrue result ↔ Derivable (claim_of self.entry) }
    {
        match self.judgement {
            Judgement::Of { prop, .. } => self.props.own().has(prop),
            Judgement::Disj { left, right } => are_opposed(left, right),
        }
    }

    // A premise of the rule, the first one at 0, beside what is derivable of its term.
    fn premise(self, rule: RuleId, i: usize) -> Option<JudgementWithProps<'a, 'm>>
        requires { HasItsProps self }
        ensures premise { option_map claim_of result ≡ option_and_then (λ needed. slice_get needed i)
            (premises rule (claim_of self.entry)) }
        ensures props { IfSome result HasItsProps }
    {
        let judgement = premise(rule, self.judgement, i)?;
        let props = self.tree_for(rule, i);
        Some(JudgementWithProps { judgement, props })
    }

    // What is derivable of the part that the rule's premise is about.
    fn tree_for(self, rule: RuleId, i: usize) -> &'m PropsTree
        ensures { result.now ≡ tree_for (slice_get (row_of rule).premises i) self.entry.props.now }
    {
        match need_at(rule, i) {
            Some(Need::Of(_, Part::M)) => self.props.first(),
            Some(Need::Of(_, Part::N)) => self.props.second(),
            _ => self.props,
        }
    }

    // The first derivation of the judgement.
    #[cycle(first)]
    fn first(self, alloc: Global) -> Result<Derivation, AllocError>
        requires props { HasItsProps self }
        requires derivable { Derivable (claim_of self) }
        ensures { IfOk result (λ derivation. IsFirst (rule_tree derivation) (claim_of self.entry)) }
    {
        for i in 0..RuleId::COUNT {
            let Some(rule) = RuleId::at(i) else {
                unreachable!()
            };
            let children = self.children(alloc, rule)?;
            if let Some(children) = children {
                return Ok(Derivation { rule, children });
            }
        }
        unreachable!()
    }

    // The first derivations of the rule's premises, where it fits and all of them are derivable.
    #[cycle(first)]
    fn children(self, alloc: Global, rule: RuleId) -> Result<Option<Children>, AllocError>
        requires { HasItsProps self }
        ensures { IfOk result (λ found. MatchOption found (Fails rule (claim_of self.entry))
            (AreChildren rule (claim_of self.entry))) }
    {
        let Some(count) = premise_count(rule, self.judgement) else {
            return Ok(None);
        };
        if self.reason(rule).is_some() {
            return Ok(None);
        }
        let mut children = Children::new(alloc);
        for i in 0..count {
            let Some(premise) = self.premise(rule, i) else {
                unreachable!()
            };
            let child = premise.first(alloc)?;
            children.push(child)?;
        }
        Ok(Some(children))
    }

    // The rule's first premise that isn't derivable, where it fits and there is one.
    fn reason(self, rule: RuleId) -> Option<WhyLine<'a>>
        requires { HasItsProps self }
        ensures unfit { premises rule (claim_of self.entry) ≡ None → result ≡ None }
        ensures fit { (needed : List Claim) → premises rule (claim_of self.entry) ≡ Some needed
            → MatchOption result (AllDerivable needed) (λ line. IsReasonOf rule needed (reason_seen line)) }
    {
        let count = premise_count(rule, self.judgement)?;
        for i in 0..count {
            let Some(premise) = self.premise(rule, i) else {
                unreachable!()
            };
            if !premise.is_derivable() {
                return Some(WhyLine {
                    rule,
                    number: i as u8 + 1,
                    premise: premise.judgement,
                });
            }
        }
        None
    }

    // The reasons against the judgement.
    fn reasons(self, alloc: Global) -> Result<Why<'a>, AllocError>
        requires props { HasItsProps self }
        requires underivable { Derivable (claim_of self) → ⊥ }
        ensures { IfOk result (λ why. AreReasons (claim_of self.entry) (reasons_seen why)) }
    {
        let mut why = Why::new(alloc);
        for i in 0..RuleId::COUNT {
            let Some(rule) = RuleId::at(i) else {
                unreachable!()
            };
            if let Some(line) = self.reason(rule) {
                why.push(line)?;
            }
        }
        Ok(why)
    }
}
