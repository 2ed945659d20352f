// Certificates that are printed as they were read, and in which version.
use crate::texts::{DERIVATION, TERM, lay_out, nest};
use std::alloc::{AllocError, Global};
use std::process::Abort;
use vir_cert::{Certificate, print_cert, read_cert};
use vir_read::TextError;
use vir_rules::{Children, Derivation, Prop, RuleId};
use vir_term::{Leaf, Score, Term};

const UNTIL: &str = "until(1,min(borda))";

// The version that a certificate is read in, its term, property and derivation, and the version that it is printed in.
const VERSIONS: &[(&str, &str, &str, &str, &str)] = &[
    ("1", TERM, "mono", DERIVATION, "1"),
    ("2", TERM, "mono", DERIVATION, "1"),
    (
        "1",
        "loop(2,pass(1))",
        "defers(2)",
        "defers-loop-elim(defers-leaf,ne-leaf)",
        "1",
    ),
    ("2", UNTIL, "dcc", "dcc-until(cprog-leaf)", "2"),
    // the term alone, the property alone, and the derivation alone
    ("2", "rev(until(3,elect))", "mono", DERIVATION, "2"),
    ("2", TERM, "neut", DERIVATION, "2"),
    (
        "2",
        TERM,
        "mono",
        "mono-seq-ea(ne-leaf,neut-leaf,ea-leaf)",
        "2",
    ),
];

#[test]
fn what_is_read_is_printed_again(rt: HostRuntime) -> Result<(), TextError> {
    let alloc = rt.alloc();
    for (version, term, prop, derivation, new_version) in VERSIONS {
        let text = lay_out(alloc, version, term, prop, derivation)?;
        let again = lay_out(alloc, new_version, term, prop, derivation)?;
        let certificate = read_cert(alloc, text.as_bytes())?;
        assert!(rt;
            print_cert(alloc, &certificate)?.as_slice() == again.as_bytes(),
            "{text}"
        );
    }
    Ok(())
}

#[test]
fn the_most_deeply_nested_is_printed_again(rt: HostRuntime) -> Result<(), TextError> {
    let alloc = rt.alloc();
    let term = nest(alloc, "rev", 63, "elect")?;
    let derivation = nest(alloc, "ea-seq", 255, "ea-leaf")?;
    let text = lay_out(alloc, "1", &term, "ea", &derivation)?;
    let certificate = read_cert(alloc, text.as_bytes())?;
    assert!(rt; print_cert(alloc, &certificate)?.as_slice() == text.as_bytes());
    Ok(())
}

#[test]
fn blanks_and_comments_are_left_out(rt: HostRuntime) -> Result<(), TextError> {
    let alloc = rt.alloc();
    let text = b"# any\nvirage-certificate 1 term elect property el derivation el-leaf # more";
    let certificate = read_cert(alloc, text)?;
    let again = b"virage-certificate 1\nterm elect\nproperty el\nderivation el-leaf\n";
    assert!(rt; print_cert(alloc, &certificate)?.as_slice() == again.as_slice());
    Ok(())
}

// The rule of a name, without children.
fn rule_alone(rt: &impl Abort, alloc: Global, name: &str) -> Derivation {
    let Some(rule) = RuleId::named(name.as_bytes()) else {
        panic!(rt; "{name}");
    };
    Derivation {
        rule,
        children: Children::new(alloc),
    }
}

#[test]
fn a_certificate_that_was_made_is_printed(rt: HostRuntime) -> Result<(), AllocError> {
    let alloc = rt.alloc();
    let mut derivation = rule_alone(&rt, alloc, "dcc-until");
    derivation
        .children
        .push(rule_alone(&rt, alloc, "cprog-leaf"))?;
    let certificate = Certificate {
        term: Term::Until {
            k: 1,
            body: Box::new(alloc, Term::Leaf(Leaf::Min(Score::Borda)))?,
        },
        prop: Prop::Dcc,
        derivation,
    };
    let text = lay_out(alloc, "2", UNTIL, "dcc", "dcc-until(cprog-leaf)")?;
    assert!(rt; print_cert(alloc, &certificate)?.as_slice() == text.as_bytes());
    Ok(())
}
