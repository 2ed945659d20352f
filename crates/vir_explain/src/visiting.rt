// The visits of a term, made and told one after another.
ghost use Rattle.std.specs.Prelude.{◌≡◌, ◌+◌, ◌++◌, ◌<◌, ◌≤◌, ◌^◌, [], ◌∷◌, length, suc, IfErr, IfOk, None, OnOk};
ghost use Rattle.std.specs.FinSet as set;
ghost use Rattle.vir_altset.specs.Sets.{all, IsPart};
ghost use Rattle.vir_profile.specs.Profiles.{restrict};
ghost use Rattle.vir_mean.specs.Compositions.{loop_of};
ghost use Rattle.vir_mean.specs.Meaning.{mean};
ghost use Rattle.vir_term.specs.Appending.{Appends};
ghost use Rattle.vir_term.specs.Limits.{size_limit, IsWithinLimits};
ghost use Rattle.vir_term.specs.Tree.{leaf, size, tree};
ghost use Rattle.vir_explain.specs.Explained.{Explains};
ghost use Rattle.vir_explain.specs.Endings.{end_of};
ghost use Rattle.vir_explain.specs.TextLimits.{text_limit, IsTooLong};
ghost use Rattle.vir_explain.specs.declared.unexplained.Unexplained.TheVariants.{TooLong};
ghost use Rattle.vir_explain.specs.Visits.{left_by, rounds, score_of_term, visits};
ghost use Rattle.vir_explain.specs.VisitTexts.{explained_text, visit_text, visits_text};

use crate::ending::{Ending, ends_at};
use crate::modules::defer_all;
use crate::unexplained::{Unexplained, keep_short};
use crate::visit_text::{push_composition, push_module};
use vir_mean::{join_in_parallel, join_in_sequence, revise};
use vir_profile::{AltSet, Split};
use vir_tables::Election;
use vir_term::{Leaf, Term};

// Appends the visit of a module, and gives its split.
#[tactic(auto, using(vir_term::proofs::Beginnings::beginnings))]
fn visit_module(
    text: &mut Vec<u8>,
    place: u32,
    basic: &Leaf,
    election: &Election,
    domain: &AltSet,
) -> Result<Split, Unexplained>
    requires { IsPart domain.now (all election.now.profile.alternatives) }
    ensures split { IfOk result (λ split. split
        ≡ mean (leaf basic.now) domain.now (restrict domain.now election.now.profile.lines)) }
    ensures text { Appends result text.old.items text.new.items
        (visits_text (visits place (leaf basic.now) election.now.profile.lines domain.now)) }
    ensures short { OnOk result (length text.new.items ≤ text_limit) }
    ensures long { IfErr result (λ why. why ≡ TooLong → IsTooLong (text.old.items
        ++ visits_text (visits place (leaf basic.now) election.now.profile.lines domain.now))) }
{
    let split = push_module(text, place, basic, election, domain)?;
    keep_short(text)?;
    Ok(split)
}

// Appends the visit of a composition with this split, and gives the split.
#[tactic(auto, using(vir_term::proofs::Beginnings::beginnings))]
fn visit_composition(
    text: &mut Vec<u8>,
    place: u32,
    term: &Term,
    domain: &AltSet,
    split: Split,
) -> Result<Split, Unexplained>
    ensures split { IfOk result (λ given. given ≡ split) }
    ensures text { Appends result text.old.items text.new.items (visit_text (record {
      place = place;
      term = tree term.now;
      domain = domain.now;
      scores = None;
      split = split;
    })) }
    ensures short { OnOk result (length text.new.items ≤ text_limit) }
    ensures long { IfErr result (λ why. why ≡ TooLong → IsTooLong (text.old.items ++ visit_text (record {
      place = place;
      term = tree term.now;
      domain = domain.now;
      scores = None;
      split = split;
    }))) }
{
    push_composition(text, place, term, domain, &split)?;
    keep_short(text)?;
    Ok(split)
}

// Appends the visits of a term, and gives its split.
#[cycle(visits)]
#[tactic(auto, using(vir_term::proofs::Beginnings::beginnings))]
fn visit(
    text: &mut Vec<u8>,
    place: u32,
    term: &Term,
    election: &Election,
    domain: &AltSet,
) -> Result<Split, Unexplained>
    requires part { IsPart domain.now (all election.now.profile.alternatives) }
    requires room { place + size (tree term.now) ≤ size_limit }
    ensures split { IfOk result (λ split. split
        ≡ mean (tree term.now) domain.now (restrict domain.now election.now.profile.lines)) }
    ensures text { Appends result text.old.items text.new.items
        (visits_text (visits place (tree term.now) election.now.profile.lines domain.now)) }
    ensures short { OnOk result (length text.new.items ≤ text_limit) }
    ensures long { IfErr result (λ why. why ≡ TooLong → IsTooLong (text.old.items
        ++ visits_text (visits place (tree term.now) election.now.profile.lines domain.now))) }
{
    match term {
        Term::Leaf(basic) => visit_module(text, place, basic, election, domain),
        Term::Rev(part) => {
            let one = visit(text, place + 1, part, election, domain)?;
            visit_composition(text, place, term, domain, revise(&one, domain))
        }
        Term::Seq(first, second) => {
            let one = visit(text, place + 1, first, election, domain)?;
            let behind = place + 1 + first.size();
            let other = visit(text, behind, second, election, &one.deferred)?;
            visit_composition(text, place, term, domain, join_in_sequence(&one, &other))
        }
        Term::Par(first, second) => {
            let one = visit(text, place + 1, first, election, domain)?;
            let behind = place + 1 + first.size();
            let other = visit(text, behind, second, election, domain)?;
            visit_composition(text, place, term, domain, join_in_parallel(&one, &other))
        }
        Term::Loop { k, body } => {
            let split = visit_rounds(text, place + 1, Ending::Exactly(*k), body, election, domain)?;
            visit_composition(text, place, term, domain, split)
        }
        Term::Until { k, body } => {
            let split = visit_rounds(text, place + 1, Ending::AtMost(*k), body, election, domain)?;
            visit_composition(text, place, term, domain, split)
        }
    }
}

// Appends the visits of the rounds of a loop whose body stands at this place, and gives what the loop comes to.
#[cycle(visits)]
#[tactic(auto, using(vir_term::proofs::Beginnings::beginnings))]
fn visit_rounds(
    text: &mut Vec<u8>,
    place: u32,
    ending: Ending,
    body: &Term,
    election: &Election,
    domain: &AltSet,
) -> Result<Split, Unexplained>
    requires part { IsPart domain.now (all election.now.profile.alternatives) }
    requires room { place + size (tree body.now) ≤ size_limit }
    ensures split { IfOk result (λ split. split
        ≡ loop_of (end_of ending) (mean (tree body.now)) domain.now
        (restrict domain.now election.now.profile.lines)) }
    ensures text { Appends result text.old.items text.new.items (visits_text (rounds (suc (set.len domain.now))
        (end_of ending) (left_by (tree body.now) election.now.profile.lines)
        (visits place (tree body.now) election.now.profile.lines) domain.now)) }
    ensures long { IfErr result (λ why. why ≡ TooLong → IsTooLong (text.old.items
        ++ visits_text (rounds (suc (set.len domain.now)) (end_of ending)
        (left_by (tree body.now) election.now.profile.lines)
        (visits place (tree body.now) election.now.profile.lines) domain.now))) }
{
    let mut so_far = defer_all(domain);
    let most = domain.count() + 1;
    for _round in 0..most {
        if ends_at(ending, &so_far.deferred) {
            return Ok(so_far);
        }
        let next = visit(text, place, body, election, &so_far.deferred)?;
        if next.deferred.equals(&so_far.deferred) {
            return Ok(so_far);
        }
        so_far = join_in_sequence(&so_far, &next);
    }
    Ok(so_far)
}

/// Appends how a rule comes to its result on all alternatives of an election: the paragraphs of all visits in the
/// order of evaluation, the last of them that of the whole rule. It gives the rule's split. It ends as soon as the
/// whole text, with what stood there, passes the limit: the text is too long just where with all visits it would pass
/// it. After want of memory, or a text that is too long, what stood there is the beginning still.
pub fn push_explanation(
    text: &mut Vec<u8>,
    rule: &Term,
    election: &Election,
) -> Result<Split, Unexplained>
    requires { IsWithinLimits (tree rule.now) }
    ensures meaning { IfOk result (λ split. split
        ≡ mean (tree rule.now) (all election.now.profile.alternatives) election.now.profile.lines) }
    ensures text { Appends result text.old.items text.new.items
        (explained_text (tree rule.now) election.now.profile.lines (all election.now.profile.alternatives)) }
    ensures short { OnOk result (length text.new.items ≤ text_limit) }
    ensures long { IfErr result (λ why. why ≡ TooLong → IsTooLong (text.old.items
        ++ explained_text (tree rule.now) election.now.profile.lines (all election.now.profile.alternatives))) }
    // Each step of what is told can be checked: the visits account for the split, and their scores are right.
    ensures account { IfOk result (λ split. Explains (tree rule.now) election.now.profile.lines
        (all election.now.profile.alternatives) text.old.items text.new.items split) }
{
    let domain = AltSet::all(election.alternatives());
    visit(text, 0, rule, election, &domain)
}
