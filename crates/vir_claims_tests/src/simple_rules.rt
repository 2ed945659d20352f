// What rules are simplified to.
use crate::expected::Expected::Text;
use crate::expected::is_answered;
use std::alloc::{AllocError, Global};
use std::process::Abort;
use vir_claims::simplify;
use vir_course::Answer;
use vir_samples::term_of;

// What is printed of a rule that three steps simplify: each place is numbered in the term before its step.
const THREE_STEPS: &str = "simple max(borda)
rev-elect 3
seq-defer-left 2
seq-defer-left 0
";

// Rules, and what `simplify` answers.
const SIMPLIFIED: &[(&str, &str)] = &[
    ("seq(defer,seq(rev(elect),max(borda)))", THREE_STEPS),
    ("rev(rev(plurality))", "simple rev(defer)\nrev-rev 0\n"),
    (
        "seq(max(copeland),elect)",
        "simple seq(max(copeland),elect)\n",
    ),
];

// What `simplify` answers.
fn simplified(alloc: Global, rule: &str) -> Option<Answer> {
    let rule = term_of(alloc, rule).ok()?;
    simplify(alloc, &rule).ok()
}

#[test]
fn rules_are_simplified(rt: HostRuntime) -> Result<(), AllocError> {
    for (rule, expected) in SIMPLIFIED {
        let answer = simplified(rt.alloc(), rule);
        assert!(rt; is_answered(&answer, Text(expected)), "{rule}");
    }
    Ok(())
}
