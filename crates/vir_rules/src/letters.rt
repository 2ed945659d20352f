// What the letters of a row stand for.
ghost use Rattle.std.specs.Prelude.{◌≡◌, ◌+◌, nat_eq, ◌&&◌, option_map};
ghost use Rattle.vir_term.specs.Tree.{tree};
ghost use Rattle.vir_rules.specs.Claims.{claim};
ghost use Rattle.vir_rules.specs.Premises.{letters_of, letters_of_pair, paired, letters_in, part_of, filled};
ghost use Rattle.vir_rules.specs.Seen.{letters_seen};

use crate::form::Form;
use crate::judgement::Judgement;
use crate::numbers::{number_by, prop_for};
use crate::row::{Conclusion, Need, Pairing, Part};
use vir_term::{Leaf, Term};

// A row's number k, and its terms m, n, t and u.
#[derive(Clone, Copy)]
pub(crate) struct Letters<'a> {
    k: u32,
    m: &'a Term,
    n: &'a Term,
    t: &'a Term,
    u: &'a Term,
}

// The letters of a row on a term and a number.
fn letters_of<'a>(term: &'a Term, k: u32) -> Letters<'a>
    ensures { letters_seen result ≡ letters_of (tree term.now) k }
{
    let (m, n): (&'a Term, &'a Term) = match term {
        Term::Leaf(_) => (term, term),
        Term::Rev(part) => (part, part),
        Term::Seq(first, second) | Term::Par(first, second) => (first, second),
        Term::Loop { body, .. } | Term::Until { body, .. } => (body, body),
    };
    Letters {
        k,
        m,
        n,
        t: term,
        u: term,
    }
}

// The letters of a row on two terms: the first part of the one that is composed, and the other one.
fn letters_of_pair<'a>(part: &'a Term, other: &'a Term) -> Letters<'a>
    ensures { letters_seen result ≡ letters_of_pair (tree part.now) (tree other.now) }
{
    Letters {
        k: 0,
        m: part,
        n: part,
        t: part,
        u: other,
    }
}

// The letters of a row on two terms, where they are so paired.
fn letters_of_paired<'a>(pairing: Pairing, left: &'a Term, right: &'a Term) -> Option<Letters<'a>>
    ensures { option_map letters_seen result ≡ paired pairing (tree left.now) (tree right.now) }
{
    match (pairing, left, right) {
        (
            Pairing::PassDrop,
            Term::Leaf(Leaf::PassFirst { k, order }),
            Term::Leaf(Leaf::DropFirst { k: j, order: other }),
        )
        | (
            Pairing::DropPass,
            Term::Leaf(Leaf::DropFirst { k, order }),
            Term::Leaf(Leaf::PassFirst { k: j, order: other }),
        ) => (*k == *j && order.equals(other)).then_some(letters_of_pair(left, right)),
        (Pairing::SeqLeft, Term::Seq(first, _), other)
        | (Pairing::SeqRight, other, Term::Seq(first, _)) => Some(letters_of_pair(first, other)),
        (Pairing::RevLeft, Term::Rev(part), other) | (Pairing::RevRight, other, Term::Rev(part)) =>
            Some(letters_of_pair(part, other)),
        _ => None,
    }
}

// The letters of a row on a judgement, where that is what it concludes.
pub(crate) fn letters_in<'a>(
    conclusion: Conclusion,
    judgement: Judgement<'a>,
) -> Option<Letters<'a>>
    ensures { option_map letters_seen result ≡ letters_in conclusion (claim judgement.entry) }
{
    match (conclusion, judgement) {
        (_, Judgement::Of { prop, term }) => {
            let k = number_by(conclusion, prop, Form::of(term))?;
            Some(letters_of(term, k))
        }
        (Conclusion::Apart(pairing), Judgement::Disj { left, right }) => {
            letters_of_paired(pairing, left, right)
        }
        (Conclusion::Has(_, _), Judgement::Disj { .. }) => None,
    }
}

// The term that a premise is on.
fn part_of<'a>(part: Part, letters: Letters<'a>) -> &'a Term
    ensures { tree result.now ≡ part_of part (letters_seen letters.entry) }
{
    match part {
        Part::M => letters.m,
        Part::N => letters.n,
        Part::T => letters.t,
        Part::U => letters.u,
    }
}

// A premise, with its letters filled in.
pub(crate) fn fill<'a>(letters: Letters<'a>, need: Need) -> Judgement<'a>
    ensures { claim result ≡ filled (letters_seen letters.entry) need }
{
    match need {
        Need::Of(wanted, part) => Judgement::Of {
            prop: prop_for(wanted, letters.k),
            term: part_of(part, letters),
        },
        Need::Disj(left, right) => Judgement::Disj {
            left: part_of(left, letters),
            right: part_of(right, letters),
        },
    }
}
