// The rules on neutrality and on `until`: what they fit, and which premises they then have.
use std::alloc::Global;
use std::process::Abort;
use std::test::Fail;
use vir_rules::{Judgement, Prop, RuleId, fits, premise, premise_count};
use vir_samples::term_of;

// A rule's number and name; a property and a term that it fits; and the premises, each a property and a term.
const ROWS: &[(usize, &str, Prop, &str, &[(Prop, &str)])] = &[
    (83, "neut-leaf", Prop::Neut, "below(borda)", &[]),
    (83, "neut-leaf", Prop::Neut, "plurality", &[]),
    (
        84,
        "neut-rev",
        Prop::Neut,
        "rev(elect)",
        &[(Prop::Neut, "elect")],
    ),
    (
        85,
        "neut-seq",
        Prop::Neut,
        "seq(elect,defer)",
        &[(Prop::Neut, "elect"), (Prop::Neut, "defer")],
    ),
    (
        86,
        "neut-par",
        Prop::Neut,
        "par(elect,defer)",
        &[(Prop::Neut, "elect"), (Prop::Neut, "defer")],
    ),
    (
        87,
        "neut-loop",
        Prop::Neut,
        "loop(3,defer)",
        &[(Prop::Neut, "defer")],
    ),
    (
        88,
        "neut-until",
        Prop::Neut,
        "until(3,defer)",
        &[(Prop::Neut, "defer")],
    ),
    (
        89,
        "ne-until",
        Prop::Ne,
        "until(2,drop(1))",
        &[(Prop::Ne, "drop(1)")],
    ),
    (
        90,
        "defers-until-elim",
        Prop::Defers(2),
        "until(2,drop(1))",
        &[(Prop::Elim(1), "drop(1)"), (Prop::Ne, "drop(1)")],
    ),
    (
        91,
        "defers-until-one",
        Prop::Defers(1),
        "until(1,drop(2))",
        &[
            (Prop::Ne, "drop(2)"),
            (Prop::Nb, "drop(2)"),
            (Prop::Decr, "drop(2)"),
        ],
    ),
    (
        92,
        "nb-until",
        Prop::Nb,
        "until(2,pass(1))",
        &[(Prop::Nb, "pass(1)")],
    ),
    (
        93,
        "dli-until",
        Prop::Dli,
        "until(2,pass(1))",
        &[(Prop::Dli, "pass(1)")],
    ),
    (
        94,
        "dcc-until",
        Prop::Dcc,
        "until(1,min(borda))",
        &[(Prop::Cprog, "min(borda)")],
    ),
    (
        95,
        "ccomp-until",
        Prop::Ccomp,
        "until(2,defer)",
        &[(Prop::Ccomp, "defer")],
    ),
    (
        15,
        "el-ea",
        Prop::El,
        "until(2,elect)",
        &[(Prop::Ea, "until(2,elect)")],
    ),
];

// Rules that don't fit: modules with an order of their own, the other kind of loop, and another number.
const MISFITS: &[(&str, Prop, &str)] = &[
    ("neut-leaf", Prop::Neut, "pass(1)"),
    ("neut-leaf", Prop::Neut, "drop(1)"),
    ("neut-loop", Prop::Neut, "until(1,elect)"),
    ("neut-until", Prop::Neut, "loop(1,elect)"),
    ("ne-loop", Prop::Ne, "until(1,defer)"),
    ("ne-until", Prop::Ne, "loop(1,defer)"),
    ("defers-until-elim", Prop::Defers(1), "until(2,drop(1))"),
    ("defers-until-one", Prop::Defers(1), "until(2,drop(2))"),
    ("dcc-until", Prop::Dcc, "until(2,min(borda))"),
    ("ne-until", Prop::Nb, "until(1,defer)"),
];

// That a premise of a judgement is this property of the term of this text.
fn expect_premise(
    rt: &impl Abort,
    alloc: Global,
    found: Option<Judgement>,
    wanted: (Prop, &str),
) -> Result<(), Fail> {
    let (wanted_prop, text) = wanted;
    let Some(Judgement::Of { prop, term }) = found else {
        assert!(rt; false, "{text}");
        return Ok(());
    };
    assert!(rt; prop == wanted_prop, "{text}");
    assert!(rt; term.print(alloc)?.as_slice() == text.as_bytes(), "{text}");
    Ok(())
}

#[test]
fn later_rules_fit_and_have_premises(rt: HostRuntime) -> Result<(), Fail> {
    let alloc = rt.alloc();
    for (number, name, prop, text, premises) in ROWS {
        let term = &term_of(alloc, text)?;
        let judgement = Judgement::Of { prop: *prop, term };
        let Some(rule) = RuleId::named(name.as_bytes()) else {
            assert!(rt; false, "{name}");
            return Ok(());
        };
        assert!(rt; rule.number() == *number && fits(rule, judgement), "{name}");
        assert!(rt;
            premise_count(rule, judgement) == Some(premises.len()),
            "{name}"
        );
        for (i, wanted) in premises.iter().enumerate() {
            expect_premise(&rt, alloc, premise(rule, judgement, i), *wanted)?;
        }
    }
    Ok(())
}

#[test]
fn later_rules_fit_nothing_else(rt: HostRuntime) -> Result<(), Fail> {
    let alloc = rt.alloc();
    for (name, prop, text) in MISFITS {
        let term = &term_of(alloc, text)?;
        let judgement = Judgement::Of { prop: *prop, term };
        let rule = RuleId::named(name.as_bytes());
        assert!(rt;
            rule.is_some_and(|rule| !fits(rule, judgement)),
            "{name} of {text}"
        );
    }
    Ok(())
}
