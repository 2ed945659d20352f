// The text of a certificate.
ghost use Rattle.std.specs.Prelude.{◌≡◌, IfOk};
ghost use Rattle.vir_term.specs.Tree.{tree};
ghost use Rattle.vir_cert.specs.Seen.{cert_seen};
ghost use Rattle.vir_rules.specs.RuleTrees.{gathered, rule_tree, rule_trees};
ghost use Rattle.vir_cert.specs.Texts.{cert_text, has_rules_up_to, has_until, have_rules_up_to, version_of};

use crate::certificate::Certificate;
use crate::version::{Version, is_new_prop};
use std::alloc::{AllocError, Global};
use vir_report::{push_derivation, push_prop};
use vir_rules::{Children, Derivation};
use vir_term::{Term, push_term};

// Whether a term has an `until`.
fn has_until(term: &Term) -> bool
    ensures { result ≡ has_until (tree term.now) }
{
    match term {
        Term::Leaf(_) => false,
        Term::Rev(part) => has_until(part),
        Term::Seq(first, second) | Term::Par(first, second) => has_until(first)
            || has_until(second),
        Term::Loop { body, .. } => has_until(body),
        Term::Until { .. } => true,
    }
}

// Whether the rules of these derivations are among the first so many.
#[cycle(up_to)]
fn have_rules_up_to(children: &Children, last: usize) -> bool
    ensures { result ≡ have_rules_up_to last (gathered (rule_trees children.now)) }
{
    for i in 0..children.len() {
        let Some(child) = children.at(i) else {
            unreachable!()
        };
        if !has_rules_up_to(child, last) {
            return false;
        }
    }
    true
}

// Whether the rules of a derivation are.
#[cycle(up_to)]
fn has_rules_up_to(derivation: &Derivation, last: usize) -> bool
    ensures { result ≡ has_rules_up_to last (rule_tree derivation.now) }
{
    derivation.rule.number() <= last && have_rules_up_to(&derivation.children, last)
}

// The version that a certificate is printed in.
fn version_of(certificate: &Certificate) -> Version
    ensures { result ≡ version_of (cert_seen certificate.now) }
{
    if !has_until(&certificate.term)
        && !is_new_prop(certificate.prop)
        && has_rules_up_to(&certificate.derivation, Version::One.last_rule())
    {
        Version::One
    } else {
        Version::Two
    }
}

/// The text of a certificate, in the first version that has all that it names.
pub fn print_cert(alloc: Global, certificate: &Certificate) -> Result<Vec<u8>, AllocError>
    ensures { IfOk result (λ text. text.items ≡ cert_text (cert_seen certificate.now)) }
{
    let mut text = Vec::new(alloc);
    text.extend_from_slice(b"virage-certificate ")?;
    text.extend_from_slice(version_of(certificate).name().as_bytes())?;
    text.extend_from_slice(b"\nterm ")?;
    push_term(&mut text, &certificate.term)?;
    text.extend_from_slice(b"\nproperty ")?;
    push_prop(&mut text, certificate.prop)?;
    text.extend_from_slice(b"\nderivation ")?;
    push_derivation(&mut text, &certificate.derivation)?;
    text.extend_from_slice(b"\n")?;
    Ok(text)
}
