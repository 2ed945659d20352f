// The property that a tree stands for.
ghost use Rattle.std.specs.Prelude.{◌≡◌};
ghost use Rattle.vir_read.specs.Faults.{Gives};
ghost use Rattle.vir_read.specs.RawTrees.{gathered, listed, raw_tree};
ghost use Rattle.vir_rules.specs.Named.{prop_named};
ghost use Rattle.vir_cert.specs.Properties.{prop_alone, prop_of, prop_of_number, prop_then};
ghost use Rattle.vir_cert.specs.Versions.{known_prop};

use crate::version::Version;
use vir_read::{Raw, RawList, TextError, TextKind, count_of, span};
use vir_rules::{Counted, Prop, PropName};

// A property that has no number.
#[tactic(auto, using(crate::proofs::PropertyLemmas::not_alone))]
fn prop_alone(at: usize, prop: Prop, parts: &RawList) -> Result<Prop, TextError>
    ensures { Gives (λ p. p) result (prop_alone at prop (gathered (listed parts.now))) }
{
    if parts.len() == 0 {
        Ok(prop)
    } else {
        Err(TextError::fault(TextKind::WrongCountOfArguments, at))
    }
}

// A property that has one.
#[tactic(auto, using(crate::proofs::PropertyLemmas::not_of_number))]
fn prop_of_number(text: &[u8], at: usize, name: Counted, parts: &RawList) -> Result<Prop, TextError>
    ensures { Gives (λ p. p) result (prop_of_number text.now at name (gathered (listed parts.now))) }
{
    match parts.one() {
        None => Err(TextError::fault(TextKind::WrongCountOfArguments, at)),
        Some(raw) => match count_of(text, raw) {
            Ok(k) => Ok(name.prop(k)),
            Err(e) => Err(e),
        },
    }
}

// What a word names, where the version has it.
fn known_prop(version: Version, name: &[u8]) -> Option<PropName>
    ensures { result ≡ known_prop version (prop_named name.now) }
{
    match PropName::named(name) {
        None => None,
        Some(name) => {
            if version.knows(name) {
                Some(name)
            } else {
                None
            }
        }
    }
}

// The property of a word at a place, with these trees in its parentheses.
fn prop_at(
    version: Version,
    text: &[u8],
    at: usize,
    name: &[u8],
    parts: &RawList,
) -> Result<Prop, TextError>
    ensures { Gives (λ p. p) result
        (prop_then text.now at (gathered (listed parts.now)) (known_prop version (prop_named name.now))) }
{
    match known_prop(version, name) {
        None => Err(TextError::fault(TextKind::UnknownName, at)),
        Some(PropName::Alone(prop)) => prop_alone(at, prop, parts),
        Some(PropName::WithNumber(name)) => prop_of_number(text, at, name, parts),
    }
}

// The property that a tree stands for, or its first fault.
pub(crate) fn prop_of(version: Version, text: &[u8], raw: &Raw) -> Result<Prop, TextError>
    ensures { Gives (λ p. p) result (prop_of version text.now (raw_tree raw.now)) }
{
    match raw {
        Raw::Number { start, .. } => Err(TextError::fault(TextKind::WrongSort, *start as usize)),
        Raw::List { start, .. } => Err(TextError::fault(TextKind::WrongSort, *start as usize)),
        Raw::Word { start, end, parts } => prop_at(
            version,
            text,
            *start as usize,
            span(text, *start, *end),
            parts,
        ),
    }
}
