// The paragraph of a visit.
ghost use Rattle.std.specs.Prelude.{◌≡◌, ◌++◌, ◌<◌, ◌^◌, codes, decimal, option_map, IfOk, None};
ghost use Rattle.vir_altset.specs.Sets.{all, IsPart};
ghost use Rattle.vir_profile.specs.Profiles.{restrict};
ghost use Rattle.vir_mean.specs.Modules.{leaf_mean};
ghost use Rattle.vir_report.specs.ResultText.{result_text, set_line};
ghost use Rattle.vir_term.specs.Appending.{Appends};
ghost use Rattle.vir_term.specs.Tree.{leaf, tree};
ghost use Rattle.vir_explain.specs.Visits.{visit_of, score_of_term};
ghost use Rattle.vir_explain.specs.VisitTexts.{head_text, place_line, visit_text};

use crate::modules::tell_leaf;
use std::alloc::AllocError;
use vir_profile::{AltSet, Split};
use vir_report::{push_result, push_set};
use vir_tables::Election;
use vir_term::{Leaf, Term, push_leaf, push_number};

// Appends the head of a loop, whose word ends with its opening parenthesis.
#[tactic(auto, using(vir_term::proofs::Beginnings::beginnings))]
fn push_loop_head(text: &mut Vec<u8>, word: &[u8], k: u32) -> Result<(), AllocError>
    ensures { Appends result text.old.items text.new.items (word.now ++ decimal k ++ codes ")") }
{
    text.extend_from_slice(word)?;
    push_number(text, u64::from(k))?;
    text.extend_from_slice(b")")
}

// Appends the head of a term.
#[tactic(auto, using(vir_term::proofs::Beginnings::beginnings))]
fn push_head(text: &mut Vec<u8>, term: &Term) -> Result<(), AllocError>
    ensures { Appends result text.old.items text.new.items (head_text (tree term.now)) }
{
    match term {
        Term::Leaf(leaf) => push_leaf(text, leaf),
        Term::Rev(_) => text.extend_from_slice(b"rev"),
        Term::Seq(_, _) => text.extend_from_slice(b"seq"),
        Term::Par(_, _) => text.extend_from_slice(b"par"),
        Term::Loop { k, .. } => push_loop_head(text, b"loop(", *k),
        Term::Until { k, .. } => push_loop_head(text, b"until(", *k),
    }
}

// Appends the beginning of the line of a place.
#[tactic(auto, using(vir_term::proofs::Beginnings::beginnings))]
fn push_place(text: &mut Vec<u8>, place: u32) -> Result<(), AllocError>
    ensures { Appends result text.old.items text.new.items (codes "\nat " ++ decimal place ++ codes " ") }
{
    text.extend_from_slice(b"\nat ")?;
    push_number(text, u64::from(place))?;
    text.extend_from_slice(b" ")
}

// Appends the end of that line, and the line of the set that is handed to the term there.
#[tactic(auto, using(vir_term::proofs::Beginnings::beginnings))]
fn push_domain(text: &mut Vec<u8>, domain: &AltSet) -> Result<(), AllocError>
    ensures { Appends result text.old.items text.new.items (codes "\n" ++ set_line (codes "of") domain.now) }
{
    text.extend_from_slice(b"\n")?;
    push_set(text, b"of", domain)
}

// Appends the paragraph of a visit of a composition.
#[tactic(auto, using(vir_term::proofs::Beginnings::beginnings))]
pub(crate) fn push_composition(
    text: &mut Vec<u8>,
    place: u32,
    term: &Term,
    domain: &AltSet,
    split: &Split,
) -> Result<(), AllocError>
    ensures { Appends result text.old.items text.new.items (visit_text (record {
      place = place;
      term = tree term.now;
      domain = domain.now;
      scores = None;
      split = split.now;
    })) }
{
    push_place(text, place)?;
    push_head(text, term)?;
    push_domain(text, domain)?;
    push_result(text, split)
}

// Appends the paragraph of a visit of a module, and gives the module's split.
#[tactic(auto, using(vir_term::proofs::Beginnings::beginnings))]
pub(crate) fn push_module(
    text: &mut Vec<u8>,
    place: u32,
    basic: &Leaf,
    election: &Election,
    domain: &AltSet,
) -> Result<Split, AllocError>
    requires { IsPart domain.now (all election.now.profile.alternatives) }
    ensures split { IfOk result (λ split. split
        ≡ leaf_mean basic.now domain.now (restrict domain.now election.now.profile.lines)) }
    ensures text { Appends result text.old.items text.new.items
        (visit_text (visit_of place (leaf basic.now) domain.now election.now.profile.lines)) }
{
    push_place(text, place)?;
    push_leaf(text, basic)?;
    push_domain(text, domain)?;
    let split = tell_leaf(text, basic, election, domain)?;
    push_result(text, &split)?;
    Ok(split)
}
