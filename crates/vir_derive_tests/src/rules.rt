// Names and numbers of rules, what a few rules say of terms, and lists that grow.
use std::alloc::{AllocError, Global};
use std::process::Abort;
use vir_rules::{
    Children, Derivation, Form, Judgement, Need, Part, Prop, RuleId, Unfit, Wanted, Why, WhyLine,
    fits, need_at, need_count, number_for, premise, premise_count, prop_for,
};
use vir_term::{FixedOrder, Leaf, Term};

// Names of rules and their numbers; 0 where no rule is so called.
const NAMES: &[(&str, usize)] = &[
    ("ne-leaf", 1),
    ("elim-par-left", 22),
    ("disj-rev-right", 82),
    ("neut-leaf", 83),
    ("ccomp-until", 95),
    ("ne-", 0),
];

#[test]
fn rules_have_names_and_numbers(rt: HostRuntime) {
    for (name, number) in NAMES {
        let rule = RuleId::named(name.as_bytes());
        assert!(rt; rule.is_some() == (*number > 0));
        let Some(rule) = rule else {
            continue;
        };
        assert!(rt; rule.number() == *number && rule.name() == *name);
        let standing = RuleId::at(*number - 1);
        assert!(rt; standing.is_some_and(|rule| rule.number() == *number));
    }
    assert!(rt; RuleId::at(RuleId::COUNT).is_none());
    assert!(rt; Unfit::RuleDoesNotFit.name() == "RuleDoesNotFit");
}

// The first k alternatives, by the order of the numbers: `pass`, or `drop`.
fn first(alloc: Global, k: u32, is_pass: bool) -> Result<Term, AllocError> {
    Ok(match FixedOrder::of(Vec::new(alloc)) {
        Ok(order) if is_pass => Term::Leaf(Leaf::PassFirst { k, order }),
        Ok(order) => Term::Leaf(Leaf::DropFirst { k, order }),
        Err(_) => Term::Leaf(Leaf::Elect),
    })
}

// The rule `par(seq(pass(2),elect),drop(2))`.
fn sample(alloc: Global) -> Result<Term, AllocError> {
    let passed = Box::new(alloc, first(alloc, 2, true)?)?;
    let elected = Box::new(alloc, Term::Leaf(Leaf::Elect))?;
    let left = Box::new(alloc, Term::Seq(passed, elected))?;
    let right = Box::new(alloc, first(alloc, 2, false)?)?;
    Ok(Term::Par(left, right))
}

// That a rule has so many premises on a judgement, or doesn't fit it.
fn expect_premises(rt: &impl Abort, name: &str, judgement: Judgement, count: Option<usize>) {
    let Some(rule) = RuleId::named(name.as_bytes()) else {
        assert!(rt; false);
        return;
    };
    assert!(rt; fits(rule, judgement) == count.is_some());
    assert!(rt; premise_count(rule, judgement) == count);
    for i in 0..5 {
        let stands = count.is_some_and(|count| i < count);
        assert!(rt; premise(rule, judgement, i).is_some() == stands);
    }
}

#[test]
fn rules_fit_what_they_conclude(rt: HostRuntime) -> Result<(), AllocError> {
    let alloc = rt.alloc();
    let left = &first(alloc, 2, true)?;
    let right = &first(alloc, 2, false)?;
    expect_premises(
        &rt,
        "disj-pass-drop",
        Judgement::Disj { left, right },
        Some(0),
    );
    expect_premises(
        &rt,
        "disj-pass-drop",
        Judgement::Disj {
            left: right,
            right: left,
        },
        None,
    );
    let term = &sample(alloc)?;
    let prop = Prop::Elim(1);
    expect_premises(&rt, "elim-par-left", Judgement::Of { prop, term }, Some(4));
    let prop = Prop::Dli;
    expect_premises(&rt, "dli-leaf", Judgement::Of { prop, term }, None);
    Ok(())
}

#[test]
fn rows_are_read(rt: HostRuntime) -> Result<(), AllocError> {
    let passed = first(rt.alloc(), 2, true)?;
    let defers = RuleId::named(b"defers-leaf");
    let number = defers.and_then(|rule| number_for(rule, Prop::Defers(2), Form::of(&passed)));
    assert!(rt; number == Some(2));
    assert!(rt; prop_for(Wanted::DefersK, 2) == Prop::Defers(2));
    let Some(rule) = RuleId::named(b"elim-par-left") else {
        assert!(rt; false);
        return Ok(());
    };
    assert!(rt; need_count(rule) == 4);
    assert!(rt;
        matches!(
            need_at(rule, 2),
            Some(Need::Of(Wanted::Is(Prop::Rejects(2)), Part::N))
        )
    );
    Ok(())
}

#[test]
fn derivations_and_reasons_are_listed(rt: HostRuntime) -> Result<(), AllocError> {
    let alloc = rt.alloc();
    let Some(rule) = RuleId::at(0) else {
        return Ok(());
    };
    let mut children = Children::new(alloc);
    let child = Derivation {
        rule,
        children: Children::new(alloc),
    };
    children.push(child)?;
    assert!(rt; children.len() == 1 && children.at(1).is_none());
    assert!(rt; children.at(0).is_some_and(|child| child.rule.number() == 1));
    let term = first(alloc, 1, true)?;
    let premise = Judgement::Of {
        prop: Prop::Ne,
        term: &term,
    };
    let mut why = Why::new(alloc);
    why.push(WhyLine {
        rule,
        number: 3,
        premise,
    })?;
    assert!(rt; why.len() == 1 && why.at(1).is_none());
    assert!(rt; why.at(0).is_some_and(|line| line.number == 3));
    Ok(())
}
