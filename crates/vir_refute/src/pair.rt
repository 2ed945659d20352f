// Properties of lifts, and cases of them.
ghost use Rattle.std.specs.Prelude.{◌≡◌, ◌↔◌, ◌≤◌, true, IsTrue, IfOk};
ghost use Rattle.std.specs.FinSet as set;
ghost use Rattle.vir_altset.specs.Sets.{limit};
ghost use Rattle.vir_term.specs.Tree.{tree};
ghost use Rattle.vir_mean.specs.Meaning.{mean};
ghost use Rattle.vir_mean.specs.Properties.{StaysOrBecomes};
ghost use Rattle.vir_refute.specs.Cases.{pair};
ghost use Rattle.vir_refute.specs.Judged.{election_of, IsVerdict};
ghost use Rattle.vir_refute.specs.Violations.{PremiseOnLift, ConclusionOnLift};

use crate::lifts::is_lift;
use crate::sets::{is_none, same_split, stays_or_becomes};
use crate::split::split_of;
use crate::verdict::{CaseVerdict, Reason};
use std::alloc::{AllocError, Global};
use vir_profile::{Profile, Split};
use vir_term::{Prop, Term};

// Whether the premise is true, by the split of the first profile.
fn is_premise_met(prop: Prop, x: u16, before: &Split) -> bool
    requires { (1 ≤ x) × (x ≤ limit) }
    ensures { IsTrue result ↔ PremiseOnLift prop x before.now }
{
    match prop {
        Prop::Dli | Prop::Dmono => before.deferred.has(x),
        Prop::Imono | Prop::Mono => before.elected.has(x),
        Prop::Dimono => before.deferred.has(x) || !is_none(&before.elected),
        _ => false,
    }
}

// Whether the deferred set stays, or becomes that of x alone, where x is deferred.
fn stays_deferred(x: u16, before: &Split, after: &Split) -> bool
    requires { (1 ≤ x) × (x ≤ limit) }
    ensures { IsTrue result ↔ (set.contains before.now.deferred x ≡ true
        → StaysOrBecomes x before.now.deferred after.now.deferred) }
{
    !before.deferred.has(x) || stays_or_becomes(x, &before.deferred, &after.deferred)
}

// Whether the conclusion is true, by the splits of both.
fn is_concluded(prop: Prop, x: u16, before: &Split, after: &Split) -> bool
    requires { (1 ≤ x) × (x ≤ limit) }
    ensures { IsTrue result ↔ ConclusionOnLift prop x before.now after.now }
{
    match prop {
        Prop::Dli => same_split(after, before),
        Prop::Imono => stays_or_becomes(x, &before.elected, &after.elected),
        Prop::Dimono => is_none(&before.elected) && stays_deferred(x, before, after),
        Prop::Dmono => after.deferred.has(x),
        Prop::Mono => after.elected.has(x),
        _ => true,
    }
}

/// Whether two profiles violate a property of lifts, where x is said to be lifted.
pub fn judge_pair(
    alloc: Global,
    term: &Term,
    prop: Prop,
    first: &Profile,
    second: &Profile,
    x: u16,
) -> Result<CaseVerdict, AllocError>
    ensures { IfOk result (λ verdict.
        IsVerdict verdict prop (mean (tree term.now)) (pair (election_of first.now) (election_of second.now) x)) }
{
    if !is_lift(first, second, x) {
        return Ok(CaseVerdict::NotViolated(Reason::NotALift));
    }
    let before = split_of(alloc, term, first)?;
    if !is_premise_met(prop, x, &before) {
        return Ok(CaseVerdict::NotViolated(Reason::PremiseNotMet));
    }
    let after = split_of(alloc, term, second)?;
    if is_concluded(prop, x, &before, &after) {
        Ok(CaseVerdict::NotViolated(Reason::ClauseHolds))
    } else {
        Ok(CaseVerdict::Violated)
    }
}
