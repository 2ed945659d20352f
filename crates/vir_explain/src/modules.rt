// How each module splits a set, and by which scores.
ghost use Rattle.std.specs.Prelude.{◌≡◌, [], IfOk, Some, option_map};
ghost use Rattle.std.specs.FinSet as set;
ghost use Rattle.vir_altset.specs.Sets.{all, IsPart};
ghost use Rattle.vir_profile.specs.Profiles.{restrict};
ghost use Rattle.vir_mean.specs.Eliminators.{eliminator};
ghost use Rattle.vir_mean.specs.Modules.{first_dropped, first_passed, leaf_mean, winners_elected};
ghost use Rattle.vir_mean.specs.Undecided.{undecided};
ghost use Rattle.vir_term.specs.Appending.{Appends};
ghost use Rattle.vir_term.specs.declared.score.Score.TheVariants.{Plurality};
ghost use Rattle.vir_explain.specs.Visits.{score_in, scores_by};
ghost use Rattle.vir_explain.specs.VisitTexts.{scores_text};

use crate::scores::push_scores;
use std::alloc::AllocError;
use vir_mean::{Elimination, PLACES, Tally, eliminate_by_scores, first_members, list_members};
use vir_profile::{AltSet, Split};
use vir_score::{KeptScore, Scoring};
use vir_tables::Election;
use vir_term::{FixedOrder, Leaf, Score};

// All are deferred.
pub(crate) fn defer_all(domain: &AltSet) -> Split
    ensures { result ≡ undecided domain.now }
{
    elect_none(AltSet::empty(), *domain)
}

// Nobody is elected: these are rejected, and those deferred.
fn elect_none(rejected: AltSet, deferred: AltSet) -> Split
    ensures { result ≡ record { elected = set.empty; rejected = rejected; deferred = deferred } }
{
    Split {
        elected: AltSet::empty(),
        rejected,
        deferred,
    }
}

// These are elected and those rejected, and nobody is deferred.
fn defer_none(elected: AltSet, rejected: AltSet) -> Split
    ensures { result ≡ record { elected = elected; rejected = rejected; deferred = set.empty } }
{
    Split {
        elected,
        rejected,
        deferred: AltSet::empty(),
    }
}

// The first k in a fixed order are deferred, and the others rejected.
fn pass_first(k: u32, order: &FixedOrder, domain: &AltSet) -> Split
    ensures { result ≡ first_passed k order.now domain.now [] }
{
    let first = first_members(k, order, domain);
    elect_none(domain.minus(&first), first)
}

// The first k in a fixed order are rejected, and the others deferred.
fn drop_first(k: u32, order: &FixedOrder, domain: &AltSet) -> Split
    ensures { result ≡ first_dropped k order.now domain.now [] }
{
    let first = first_members(k, order, domain);
    elect_none(first, domain.minus(&first))
}

// Appends the line of the scores by which an eliminator goes, and gives its split. The scores are worked out once.
#[tactic(auto, using(vir_term::proofs::Beginnings::beginnings))]
fn tell_eliminated(
    text: &mut Vec<u8>,
    kind: Elimination,
    named: Score,
    election: &Election,
    domain: &AltSet,
) -> Result<Split, AllocError>
    requires { IsPart domain.now (all election.now.profile.alternatives) }
    ensures split { IfOk result (λ split. split
        ≡ eliminator kind named domain.now (restrict domain.now election.now.profile.lines)) }
    ensures text { Appends result text.old.items text.new.items
        (scores_text (Some (scores_by domain.now (restrict domain.now election.now.profile.lines) named))) }
{
    // that the number of voters is a u64 bounds the scores
    let _voters = Tally::voters(election, domain);
    let mut list = [0u16; PLACES];
    let count = list_members(domain, &mut list);
    let members = &list[..count];
    let mut scores = [0i128; PLACES];
    KeptScore::new(named).fill(election, domain, members, &mut scores);
    push_scores(text, domain, members, &scores)?;
    Ok(eliminate_by_scores(kind, domain, members, &scores))
}

// Appends the line of how many voters put each member first, and gives the split that elects those put first by most.
#[tactic(auto, using(vir_term::proofs::Beginnings::beginnings))]
fn tell_winners(
    text: &mut Vec<u8>,
    election: &Election,
    domain: &AltSet,
) -> Result<Split, AllocError>
    requires { IsPart domain.now (all election.now.profile.alternatives) }
    ensures split { IfOk result (λ split. split
        ≡ winners_elected domain.now (restrict domain.now election.now.profile.lines)) }
    ensures text { Appends result text.old.items text.new.items
        (scores_text (Some (scores_by domain.now (restrict domain.now election.now.profile.lines) Plurality))) }
{
    let led = tell_eliminated(text, Elimination::Max, Score::Plurality, election, domain)?;
    Ok(defer_none(led.deferred, led.rejected))
}

// Appends the line of the scores that a module goes by, nothing where it goes by none, and gives the module's split.
pub(crate) fn tell_leaf(
    text: &mut Vec<u8>,
    leaf: &Leaf,
    election: &Election,
    domain: &AltSet,
) -> Result<Split, AllocError>
    requires { IsPart domain.now (all election.now.profile.alternatives) }
    ensures split { IfOk result (λ split. split
        ≡ leaf_mean leaf.now domain.now (restrict domain.now election.now.profile.lines)) }
    ensures text { Appends result text.old.items text.new.items (scores_text
        (option_map (scores_by domain.now (restrict domain.now election.now.profile.lines)) (score_in leaf.now))) }
{
    match leaf {
        Leaf::Elect => Ok(defer_none(*domain, AltSet::empty())),
        Leaf::Defer => Ok(defer_all(domain)),
        Leaf::PassFirst { k, order } => Ok(pass_first(*k, order, domain)),
        Leaf::DropFirst { k, order } => Ok(drop_first(*k, order, domain)),
        Leaf::Plurality => tell_winners(text, election, domain),
        Leaf::Max(score) => tell_eliminated(text, Elimination::Max, *score, election, domain),
        Leaf::Min(score) => tell_eliminated(text, Elimination::Min, *score, election, domain),
        Leaf::Below(score) => tell_eliminated(text, Elimination::Below, *score, election, domain),
        Leaf::Upto(score) => tell_eliminated(text, Elimination::Upto, *score, election, domain),
    }
}
