// What is answered of properties and their derivations.
use crate::expected::{Expected, is_answered};
use std::alloc::{AllocError, Global};
use std::process::Abort;
use vir_cert::read_cert;
use vir_claims::{check, prove, synth};
use vir_course::Answer;
use vir_rules::Prop;
use vir_samples::{MODULES, modules_of, term_of};

// A certificate.
const MONOTONE: &str = "virage-certificate 1
term seq(max(copeland),elect)
property mono
derivation mono-seq-ea(ne-leaf,dmono-leaf,ea-leaf)
";

// Why a rule isn't derived to be monotone.
const NOT_MONOTONE: &str = "underived mono
- mono-seq-defers 1 dli of loop(1,min(plurality))
- mono-seq-ea 2 dmono of loop(1,min(plurality))
- mono-ne 1 ne of seq(loop(1,min(plurality)),elect)
- mono-ea 1 ea of seq(loop(1,min(plurality)),elect)
- mono-imono 1 imono of seq(loop(1,min(plurality)),elect)
";

// Rules, properties, and what `prove` answers.
const PROVED: &[(&str, Prop, Expected)] = &[
    (
        "seq(max(copeland),elect)",
        Prop::Mono,
        Expected::Text(MONOTONE),
    ),
    (
        "seq(loop(1,min(plurality)),elect)",
        Prop::Mono,
        Expected::Denial(NOT_MONOTONE),
    ),
];

// What `prove` answers.
fn proved(alloc: Global, rule: &str, prop: Prop) -> Option<Answer> {
    let rule = term_of(alloc, rule).ok()?;
    prove(alloc, &rule, prop).ok()
}

#[test]
fn properties_are_proved_or_denied(rt: HostRuntime) -> Result<(), AllocError> {
    for (rule, prop, expected) in PROVED {
        let answer = proved(rt.alloc(), rule, *prop);
        assert!(rt; is_answered(&answer, *expected), "{rule}");
    }
    Ok(())
}

// A certificate whose second node has a rule that doesn't fit.
const MISFIT: &str = "virage-certificate 1
term par(rev(plurality),defer)
property dli
derivation dli-par(disj-pass-drop,dli-leaf,dli-leaf)
";

// A certificate whose first node has too few children.
const TOO_FEW: &str = "virage-certificate 1
term par(rev(plurality),defer)
property dli
derivation dli-par(disj-pass-drop,dli-leaf)
";

// Certificates, and what `check` answers.
const CHECKED: &[(&str, Expected)] = &[
    (MONOTONE, Expected::Text("accepted\n")),
    (MISFIT, Expected::Denial("refused node 1: RuleDoesNotFit\n")),
    (
        TOO_FEW,
        Expected::Denial("refused node 0: WrongNumberOfPremises\n"),
    ),
];

// What `check` answers.
fn checked(alloc: Global, text: &str) -> Option<Answer> {
    let certificate = read_cert(alloc, text.as_bytes()).ok()?;
    check(alloc, &certificate).ok()
}

#[test]
fn certificates_are_accepted_or_refused(rt: HostRuntime) -> Result<(), AllocError> {
    for (text, expected) in CHECKED {
        let answer = checked(rt.alloc(), text);
        assert!(rt; is_answered(&answer, *expected), "{text}");
    }
    Ok(())
}

// What is printed of the first rule with three properties.
const THREE_HELD: &str = "found seq(max(copeland),elect)
holds cc cc-seq-dcc(dcc-leaf,el-leaf)
holds mono mono-seq-ea(ne-leaf,dmono-leaf,ea-leaf)
holds el el-seq-second(nb-leaf,el-leaf)
";

// What is printed of the first rule with two properties, composed of one module.
const TWO_HELD: &str = "found elect
holds el el-leaf
holds mono mono-ea(ea-leaf)
";

// A size, wanted properties, modules, and what `synth` answers.
const FOUND: &[(u32, &[Prop], &[&str], Expected)] = &[
    (
        3,
        &[Prop::Cc, Prop::Mono, Prop::El],
        MODULES,
        Expected::Text(THREE_HELD),
    ),
    (
        3,
        &[Prop::El, Prop::Mono],
        &["elect"],
        Expected::Text(TWO_HELD),
    ),
    // there are more than 3,000,000,000 such terms
    (
        9,
        &[Prop::Ne, Prop::El],
        MODULES,
        Expected::Denial("none up to 9\n"),
    ),
];

// What `synth` answers.
fn found(alloc: Global, size: u32, props: &[Prop], modules: &[&str]) -> Option<Answer> {
    let modules = modules_of(alloc, modules).ok()?;
    synth(alloc, size, props, &modules).ok()
}

#[test]
fn rules_are_found_or_denied(rt: HostRuntime) -> Result<(), AllocError> {
    for (size, props, modules, expected) in FOUND {
        let answer = found(rt.alloc(), *size, props, modules);
        assert!(rt; is_answered(&answer, *expected), "{size}");
    }
    Ok(())
}
