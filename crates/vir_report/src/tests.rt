// Texts of every kind, against what they are to be.
use crate::{derivation_text, judgement_text, prop_text, result_text, why_text};
use std::alloc::{AllocError, Global};
use std::process::Abort;
use vir_altset::{AltSet, Split};
use vir_rules::{Children, Derivation, Judgement, Prop, RuleId, Why, WhyLine};
use vir_term::{Leaf, Score, Term};

// The text is to be this one.
fn expect_text(rt: &impl Abort, text: &[u8], expected: &[u8]) {
    assert!(rt; text == expected);
}

// Each property, and its text.
const PROPS: &[(Prop, &[u8])] = &[
    (Prop::Ne, b"ne"),
    (Prop::Ea, b"ea"),
    (Prop::El, b"el"),
    (Prop::Defers(1), b"defers(1)"),
    (Prop::Rejects(20), b"rejects(20)"),
    (Prop::Elim(1_000_000), b"elim(1000000)"),
    (Prop::Nb, b"nb"),
    (Prop::Decr, b"decr"),
    (Prop::Dli, b"dli"),
    (Prop::Imono, b"imono"),
    (Prop::Dimono, b"dimono"),
    (Prop::Dmono, b"dmono"),
    (Prop::Mono, b"mono"),
    (Prop::Cc, b"cc"),
    (Prop::Dcc, b"dcc"),
    (Prop::Cprog, b"cprog"),
    (Prop::Ccomp, b"ccomp"),
    (Prop::Neut, b"neut"),
];

#[test]
fn properties(rt: HostRuntime) -> Result<(), AllocError> {
    for (prop, text) in PROPS {
        expect_text(&rt, &prop_text(rt.alloc(), *prop)?, text);
    }
    Ok(())
}

#[test]
fn members_of_a_result_ascend(rt: HostRuntime) -> Result<(), AllocError> {
    let split = Split {
        elected: AltSet::empty().with(2),
        rejected: AltSet::empty().with(100).with(3).with(1),
        deferred: AltSet::empty(),
    };
    let text = result_text(rt.alloc(), &split)?;
    expect_text(&rt, &text, b"elected: 2\nrejected: 1 3 100\ndeferred:\n");
    Ok(())
}

fn boxed(alloc: Global, leaf: Leaf) -> Result<Box<Term>, AllocError> {
    Ok(Box::new(alloc, Term::Leaf(leaf))?)
}

#[test]
fn judgements(rt: HostRuntime) -> Result<(), AllocError> {
    let first = boxed(rt.alloc(), Leaf::Max(Score::Copeland))?;
    let second = boxed(rt.alloc(), Leaf::Elect)?;
    let rule = Term::Seq(first, second);
    let other = Term::Leaf(Leaf::Plurality);
    let of = Judgement::Of {
        prop: Prop::Defers(1),
        term: &rule,
    };
    let disj = Judgement::Disj {
        left: &other,
        right: &rule,
    };
    expect_text(
        &rt,
        &judgement_text(rt.alloc(), of)?,
        b"defers(1) of seq(max(copeland),elect)",
    );
    expect_text(
        &rt,
        &judgement_text(rt.alloc(), disj)?,
        b"disj of plurality and seq(max(copeland),elect)",
    );
    Ok(())
}

// The rule of this name.
fn named(rt: &impl Abort, name: &[u8]) -> RuleId {
    RuleId::named(name).expect(rt, "a rule of the table")
}

// A derivation by the rule of this name, without premises.
fn without_premises(rt: &impl Abort, alloc: Global, name: &[u8]) -> Derivation {
    Derivation {
        rule: named(rt, name),
        children: Children::new(alloc),
    }
}

// The names of rules without premises.
const CHILDREN: &[&[u8]] = &[b"ne-leaf", b"dmono-leaf", b"ea-leaf"];

#[test]
fn children_stand_in_parentheses(rt: HostRuntime) -> Result<(), AllocError> {
    let mut children = Children::new(rt.alloc());
    for name in CHILDREN {
        children.push(without_premises(&rt, rt.alloc(), name))?;
    }
    let derivation = Derivation {
        rule: named(&rt, b"mono-seq-ea"),
        children,
    };
    let text = derivation_text(rt.alloc(), &derivation)?;
    expect_text(&rt, &text, b"mono-seq-ea(ne-leaf,dmono-leaf,ea-leaf)");
    Ok(())
}

#[test]
fn reasons_stand_on_lines(rt: HostRuntime) -> Result<(), AllocError> {
    let elect = Term::Leaf(Leaf::Elect);
    let mut why = Why::new(rt.alloc());
    expect_text(&rt, &why_text(rt.alloc(), &why)?, b"- no rule\n");
    why.push(WhyLine {
        rule: named(&rt, b"dli-seq-one"),
        number: 2,
        premise: Judgement::Of {
            prop: Prop::Ne,
            term: &elect,
        },
    })?;
    why.push(WhyLine {
        rule: named(&rt, b"dli-par"),
        number: 1,
        premise: Judgement::Disj {
            left: &elect,
            right: &elect,
        },
    })?;
    let text = why_text(rt.alloc(), &why)?;
    expect_text(
        &rt,
        &text,
        b"- dli-seq-one 2 ne of elect\n- dli-par 1 disj of elect and elect\n",
    );
    Ok(())
}
