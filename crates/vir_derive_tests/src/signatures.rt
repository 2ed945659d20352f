// Signatures of small rules that are read from their texts, and those of compositions.
use std::alloc::Global;
use std::process::Abort;
use vir_derive::{
    Signature, loop_one_signature, par_signature, rev_signature, seq_signature, signature,
};
use vir_read::TextError;
use vir_rules::Prop;
use vir_samples::term_of;

// The signature of a rule's text for the numbers 1, 2 and 7.
fn signature_of(alloc: Global, text: &str) -> Result<Signature, TextError> {
    let term = term_of(alloc, text)?;
    let found = signature(alloc, &term, &[1, 2, 7])?;
    Ok(found)
}

// A rule, and whether a property is in its signature for the numbers 1, 2 and 7.
const IN_SIGNATURE: &[(&str, Prop, bool)] = &[
    ("pass(7)", Prop::Defers(7), true),
    ("pass(7)", Prop::Defers(1), false),
    ("pass(8)", Prop::Defers(8), false),
    ("drop(7)", Prop::Rejects(7), true),
    ("drop(3)", Prop::Rejects(3), false),
    ("pass(1)", Prop::Defers(1), true),
    ("max(copeland)", Prop::Nb, true),
    ("seq(max(copeland),elect)", Prop::El, true),
    ("seq(max(copeland),elect)", Prop::Ne, false),
    ("par(pass(7),drop(7))", Prop::Dli, true),
    ("par(pass(7),drop(2))", Prop::Dli, false),
];

#[test]
fn a_signature_has_what_is_derivable(rt: HostRuntime) -> Result<(), TextError> {
    let alloc = rt.alloc();
    for (text, prop, expected) in IN_SIGNATURE {
        let found = signature_of(alloc, text)?;
        assert!(rt; found.has(*prop) == *expected, "{text}");
        assert!(rt; found.copy(alloc)? == found, "{text}");
    }
    Ok(())
}

// Two rules, whose compositions' signatures are to be those of the composed rules.
const PARTS: &[(&str, &str)] = &[
    ("elect", "defer"),
    ("pass(7)", "drop(7)"),
    ("drop(7)", "pass(7)"),
    ("seq(pass(2),elect)", "max(borda)"),
    ("rev(drop(2))", "seq(pass(2),defer)"),
    ("par(pass(1),drop(1))", "pass(9)"),
];

// That this is the signature of the rule's text.
fn expect_signature(
    rt: &impl Abort,
    alloc: Global,
    found: Signature,
    text: &str,
) -> Result<(), TextError> {
    let expected = signature_of(alloc, text)?;
    assert!(rt; found == expected, "{text}");
    Ok(())
}

#[test]
fn signatures_of_compositions_follow_from_those_of_parts(rt: HostRuntime) -> Result<(), TextError> {
    let alloc = rt.alloc();
    for (first, second) in PARTS {
        let m = signature_of(alloc, first)?;
        let n = signature_of(alloc, second)?;
        let rev = format!(in alloc; "rev({first})")?;
        expect_signature(&rt, alloc, rev_signature(alloc, &m)?, &rev)?;
        let repeated = format!(in alloc; "loop(1,{first})")?;
        expect_signature(&rt, alloc, loop_one_signature(alloc, &m)?, &repeated)?;
        let seq = format!(in alloc; "seq({first},{second})")?;
        expect_signature(&rt, alloc, seq_signature(alloc, &m, &n)?, &seq)?;
        let par = format!(in alloc; "par({first},{second})")?;
        expect_signature(&rt, alloc, par_signature(alloc, &m, &n)?, &par)?;
    }
    Ok(())
}

// Two rules, and whether they have one signature for the numbers 1, 2 and 7.
const ONE_SIGNATURE: &[(&str, &str, bool)] = &[
    ("elect", "seq(max(borda),elect)", false),
    ("pass(7)", "pass(7,[1])", false),
    ("pass(7)", "rev(pass(7))", false),
    ("drop(8)", "drop(8)", true),
    ("min(borda)", "min(copeland)", true),
];

#[test]
fn rules_share_signatures(rt: HostRuntime) -> Result<(), TextError> {
    let alloc = rt.alloc();
    for (first, second, expected) in ONE_SIGNATURE {
        let left = signature_of(alloc, first)?;
        let right = signature_of(alloc, second)?;
        assert!(rt; (left == right) == *expected, "{first} {second}");
    }
    Ok(())
}
