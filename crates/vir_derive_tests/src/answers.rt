// First derivations, and reasons, of small rules that are read from their texts.
use either::Either;
use std::alloc::Global;
use std::process::Abort;
use vir_derive::{DerivableProps, Derivations, PropsTree, are_opposed, derive};
use vir_read::TextError;
use vir_rules::{Derivation, Form, Judgement, Prop, Why};
use vir_samples::term_of;

// A rule, a property, and the first derivation: its rule, and those of its children.
const DERIVED: &[(&str, Prop, &str, &[&str])] = &[
    (
        "seq(max(copeland),elect)",
        Prop::El,
        "el-seq-second",
        &["nb-leaf", "el-leaf"],
    ),
    ("pass(7)", Prop::Defers(7), "defers-leaf", &[]),
    ("drop(3,[9])", Prop::Rejects(3), "rejects-leaf", &[]),
];

// A rule, a property, and the reasons against it: a rule, the number of its premise, the premise's property
// and term.
const UNDERIVED: &[(&str, Prop, &[(&str, u8, Prop, &str)])] = &[
    (
        "seq(drop(2),elect)",
        Prop::Nb,
        &[
            ("nb-seq", 1, Prop::Nb, "drop(2)"),
            ("nb-el", 1, Prop::El, "seq(drop(2),elect)"),
            ("nb-defers", 1, Prop::Ne, "seq(drop(2),elect)"),
        ],
    ),
    ("pass(7)", Prop::Defers(8), &[]),
];

// That this is a derivation by this rule, of children by those.
fn expect_derivation(rt: &impl Abort, derivation: &Derivation, name: &str, children: &[&str]) {
    assert!(rt; derivation.rule.name() == name, "{name}");
    assert!(rt; derivation.children.len() == children.len(), "{name}");
    for (i, child_name) in children.iter().enumerate() {
        let child = derivation.children.at(i);
        assert!(rt;
            child.is_some_and(|child| child.rule.name() == *child_name),
            "{name}"
        );
    }
}

#[test]
fn what_is_derivable_has_a_first_derivation(rt: HostRuntime) -> Result<(), TextError> {
    let alloc = rt.alloc();
    for (text, prop, name, children) in DERIVED {
        let term = term_of(alloc, text)?;
        let derivations = Derivations::of(alloc, &term)?;
        assert!(rt; derivations.derives(*prop), "{text}");
        let Either::Left(derivation) = derivations.derive(alloc, *prop)? else {
            assert!(rt; false, "{text}");
            return Ok(());
        };
        expect_derivation(&rt, &derivation, name, children);
    }
    Ok(())
}

// That the reason in a place is this one.
fn expect_reason(
    rt: &impl Abort,
    alloc: Global,
    why: &Why,
    i: usize,
    reason: (&str, u8, Prop, &str),
) -> Result<(), TextError> {
    let (name, number, wanted, text) = reason;
    let Some(line) = why.at(i) else {
        assert!(rt; false, "{name}");
        return Ok(());
    };
    assert!(rt; line.rule.name() == name && line.number == number, "{name}");
    let Judgement::Of { prop, term } = line.premise else {
        assert!(rt; false, "{name}");
        return Ok(());
    };
    assert!(rt; prop == wanted, "{name}");
    assert!(rt; term.print(alloc)?.as_slice() == text.as_bytes(), "{name}");
    Ok(())
}

#[test]
fn what_is_not_derivable_has_reasons(rt: HostRuntime) -> Result<(), TextError> {
    let alloc = rt.alloc();
    for (text, prop, reasons) in UNDERIVED {
        let term = &term_of(alloc, text)?;
        let Either::Right(why) = derive(alloc, Judgement::Of { prop: *prop, term })? else {
            assert!(rt; false, "{text}");
            return Ok(());
        };
        assert!(rt; why.len() == reasons.len(), "{text}");
        for (i, reason) in reasons.iter().enumerate() {
            expect_reason(&rt, alloc, &why, i, *reason)?;
        }
    }
    Ok(())
}

#[test]
fn terms_with_opposed_heads_are_disjoint(rt: HostRuntime) -> Result<(), TextError> {
    let alloc = rt.alloc();
    let left = &term_of(alloc, "pass(2)")?;
    let right = &term_of(alloc, "drop(2)")?;
    assert!(rt; are_opposed(left, right) && !are_opposed(left, left));
    let Either::Left(derivation) = derive(alloc, Judgement::Disj { left, right })? else {
        assert!(rt; false);
        return Ok(());
    };
    expect_derivation(&rt, &derivation, "disj-pass-drop", &[]);
    let Either::Right(why) = derive(alloc, Judgement::Disj { left, right: left })? else {
        assert!(rt; false);
        return Ok(());
    };
    assert!(rt; why.len() == 0);
    Ok(())
}

#[test]
fn each_part_has_its_properties(rt: HostRuntime) -> Result<(), TextError> {
    let term = term_of(rt.alloc(), "seq(pass(2),elect)")?;
    let props = PropsTree::of(rt.alloc(), &term)?;
    let (first, second) = (*props.first().own(), *props.second().own());
    assert!(rt; first.has(Prop::Defers(2)) && !first.has(Prop::Defers(1)));
    assert!(rt; second.has(Prop::Ea));
    assert!(rt; props.own().has(Prop::El) && !props.own().has(Prop::Ne));
    assert!(rt; DerivableProps::of_parts(Form::of(&term), first, second, false) == *props.own());
    Ok(())
}
