// Properties of one election, and cases of them.
ghost use Rattle.std.specs.Prelude.{◌≡◌, ◌↔◌, ◌≤◌, IsTrue, IfOk};
ghost use Rattle.std.specs.FinSet as set;
ghost use Rattle.vir_altset.specs.Sets.{all, limit};
ghost use Rattle.vir_term.specs.Tree.{tree};
ghost use Rattle.vir_mean.specs.Meaning.{mean};
ghost use Rattle.vir_mean.specs.Properties.{just};
ghost use Rattle.vir_refute.specs.Cases.{one};
ghost use Rattle.vir_refute.specs.Judged.{election_of, IsVerdict};
ghost use Rattle.vir_refute.specs.Violations.{OfWinner, SaysOfWinner, PremiseOnOne, ConclusionOnOne};

use crate::sets::{is_compatible, is_none, just, makes_progress, same_split};
use crate::split::split_of;
use crate::verdict::{CaseVerdict, Reason};
use crate::winner::condorcet_winner;
use std::alloc::{AllocError, Global};
use vir_profile::{AltSet, Profile, Split};
use vir_term::{Prop, Term};

// Whether the premise is true.
#[tactic(auto, using(crate::proofs::AllMembers::sizes_of_all))]
fn is_premise_met(prop: Prop, profile: &Profile) -> bool
    ensures { IsTrue result ↔ PremiseOnOne prop (election_of profile.now) }
{
    let m = u32::from(profile.alternatives());
    match prop {
        Prop::Ne | Prop::Ea => true,
        Prop::El | Prop::Nb => m > 0,
        Prop::Defers(k) | Prop::Rejects(k) => k <= m,
        Prop::Elim(k) => k < m,
        Prop::Decr => m >= 2,
        Prop::Cc | Prop::Dcc | Prop::Cprog | Prop::Ccomp => condorcet_winner(profile).is_some(),
        _ => false,
    }
}

// The winner alone is elected.
fn elect_winner(w: u16, all: &AltSet) -> Split
    requires { (1 ≤ w) × (w ≤ limit) }
    ensures { result ≡ record { elected = just w; rejected = set.difference all.now (just w); deferred = set.empty } }
{
    Split {
        elected: just(w),
        rejected: all.minus(&just(w)),
        deferred: AltSet::empty(),
    }
}

// The winner alone is deferred.
fn defer_winner(w: u16, all: &AltSet) -> Split
    requires { (1 ≤ w) × (w ≤ limit) }
    ensures { result ≡ record { elected = set.empty; rejected = set.difference all.now (just w); deferred = just w } }
{
    Split {
        elected: AltSet::empty(),
        rejected: all.minus(&just(w)),
        deferred: just(w),
    }
}

// Whether what the property says of a Condorcet winner is true of w.
fn is_true_of(w: u16, prop: Prop, all: &AltSet, split: &Split) -> bool
    requires { (1 ≤ w) × (w ≤ limit) }
    ensures { IsTrue result ↔ SaysOfWinner prop w all.now split.now }
{
    match prop {
        Prop::Cc => same_split(split, &elect_winner(w, all)),
        Prop::Dcc => same_split(split, &defer_winner(w, all)),
        Prop::Cprog => makes_progress(w, all, split),
        Prop::Ccomp => is_compatible(w, all, split),
        _ => true,
    }
}

// Whether it is true of the Condorcet winner, if there is one.
fn is_true_of_winner(prop: Prop, profile: &Profile, split: &Split) -> bool
    ensures { IsTrue result ↔ OfWinner (election_of profile.now)
        (λ w. SaysOfWinner prop w (all profile.now.alternatives) split.now) }
{
    let all = AltSet::all(profile.alternatives());
    match condorcet_winner(profile) {
        Some(w) => is_true_of(w, prop, &all, split),
        None => true,
    }
}

// Whether the conclusion is true.
fn is_concluded(prop: Prop, profile: &Profile, split: &Split) -> bool
    ensures { IsTrue result ↔ ConclusionOnOne prop (election_of profile.now) split.now }
{
    let all = AltSet::all(profile.alternatives());
    match prop {
        Prop::Ne => is_none(&split.elected),
        Prop::Ea => split.elected.equals(&all),
        Prop::El => !is_none(&split.elected),
        Prop::Defers(k) => u32::from(split.deferred.count()) == k,
        Prop::Rejects(k) | Prop::Elim(k) => u32::from(split.rejected.count()) == k,
        Prop::Nb => !split.rejected.equals(&all),
        Prop::Decr => !is_none(&split.rejected),
        _ => is_true_of_winner(prop, profile, split),
    }
}

/// Whether a profile violates a property of one election.
pub fn judge_one(
    alloc: Global,
    term: &Term,
    prop: Prop,
    profile: &Profile,
) -> Result<CaseVerdict, AllocError>
    ensures { IfOk result (λ verdict.
        IsVerdict verdict prop (mean (tree term.now)) (one (election_of profile.now))) }
{
    if !is_premise_met(prop, profile) {
        return Ok(CaseVerdict::NotViolated(Reason::PremiseNotMet));
    }
    let split = split_of(alloc, term, profile)?;
    if is_concluded(prop, profile, &split) {
        Ok(CaseVerdict::NotViolated(Reason::ClauseHolds))
    } else {
        Ok(CaseVerdict::Violated)
    }
}
