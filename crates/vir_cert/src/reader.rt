// The certificate of a text.
ghost use Rattle.std.specs.Prelude.{drop, IfOk};
ghost use Rattle.vir_term.specs.Tree.{tree};
ghost use Rattle.vir_read.specs.Faults.{Gives};
ghost use Rattle.vir_rules.specs.RuleTrees.{rule_tree};
ghost use Rattle.vir_cert.specs.Certs.{cert_of, derivation_part, parts_of, prop_part, term_part};
ghost use Rattle.vir_cert.specs.Seen.{cert_seen};
ghost use Rattle.vir_cert.specs.Texts.{IsCert};

use crate::certificate::Certificate;
use crate::derivation_reader::{DerivationEnd, read_derivation};
use crate::label::{read_end, read_header, read_label};
use crate::property::prop_of;
use crate::until::judge_words;
use crate::version::Version;
use std::alloc::Global;
use vir_read::{Names, RawEnd, TextError, TextKind, Token, read_raw, tokens, type_term};
use vir_rules::Prop;
use vir_term::Term;

/// How many bytes a certificate may have.
pub const CERTIFICATE_LIMIT: usize = 16_777_216;

// In a certificate no names are defined.
struct NoNames;

impl Names for NoNames {
    ghost use Rattle.vir_cert.specs.Certs.{no_names};

    ghost meaning = { λ _. no_names };

    fn find(&self, _name: &[u8]) -> Option<&Term> {
        None
    }
}

// A term, and the index of the token behind it.
#[derive(Drop)]
struct TermEnd {
    term: Term,
    next: usize,
}

// A property, and the index of the token behind it.
#[derive(Clone, Copy)]
struct PropEnd {
    prop: Prop,
    next: usize,
}

// The part of the term, from the token at index `from` on.
fn read_term(
    alloc: Global,
    version: Version,
    text: &[u8],
    list: &[Token],
    from: usize,
) -> Result<TermEnd, TextError>
    ensures { Gives (λ end. (tree end.term, drop end.next list.now)) result
        (term_part version text.now (drop from list.now)) }
{
    read_label(text, list, from, "term".as_bytes())?;
    let RawEnd { raw, next } = read_raw(alloc, text, list, from + 1)?;
    judge_words(version, text, &raw)?;
    let term = type_term(alloc, text, &raw, &NoNames)?;
    Ok(TermEnd { term, next })
}

// The part of the property.
fn read_prop_part(
    alloc: Global,
    version: Version,
    text: &[u8],
    list: &[Token],
    from: usize,
) -> Result<PropEnd, TextError>
    ensures { Gives (λ e. (e.prop, drop e.next list.now)) result (prop_part version text.now (drop from list.now)) }
{
    read_label(text, list, from, "property".as_bytes())?;
    let RawEnd { raw, next } = read_raw(alloc, text, list, from + 1)?;
    let prop = prop_of(version, text, &raw)?;
    Ok(PropEnd { prop, next })
}

// The part of the derivation.
fn read_derivation_part(
    alloc: Global,
    version: Version,
    text: &[u8],
    list: &[Token],
    from: usize,
) -> Result<DerivationEnd, TextError>
    ensures { Gives (λ end. (rule_tree end.derivation, drop end.next list.now)) result
        (derivation_part version text.now (drop from list.now)) }
{
    read_label(text, list, from, "derivation".as_bytes())?;
    read_derivation(alloc, text, list, from + 1, version.last_rule())
}

// The certificate that these tokens are.
fn read_parts(alloc: Global, text: &[u8], list: &[Token]) -> Result<Certificate, TextError>
    ensures { Gives (λ c. cert_seen c) result (parts_of text.now list.now) }
{
    let version = read_header(text, list)?;
    let TermEnd { term, next } = read_term(alloc, version, text, list, 2)?;
    let PropEnd { prop, next } = read_prop_part(alloc, version, text, list, next)?;
    let DerivationEnd { derivation, next } = read_derivation_part(
        alloc, version, text, list, next,
    )?;
    read_end(list, next)?;
    Ok(Certificate {
        term,
        prop,
        derivation,
    })
}

// The certificate that a text is, without a word on its limits.
fn read_whole(alloc: Global, text: &[u8]) -> Result<Certificate, TextError>
    ensures { Gives (λ c. cert_seen c) result (cert_of text.now) }
{
    if text.len() > CERTIFICATE_LIMIT {
        return Err(TextError::fault(TextKind::TextTooLong, CERTIFICATE_LIMIT));
    }
    let list = tokens(alloc, text)?;
    read_parts(alloc, text, &list)
}

/// The certificate that a text is, or its first fault: that the text is longer than `CERTIFICATE_LIMIT`, a byte that
/// belongs to no token, or the first fault of its parts, which are judged in the order of the text.
pub fn read_cert(alloc: Global, text: &[u8]) -> Result<Certificate, TextError>
    ensures exact { Gives (λ c. cert_seen c) result (cert_of text.now) }
    ensures within { IfOk result (λ c. IsCert (cert_seen c)) }
{
    match read_whole(alloc, text) {
        Ok(certificate) => Ok(certificate),
        Err(e) => Err(e),
    }
}
