// The meaning of a term, by recursion on it and by restricted ballots.
ghost use Rattle.std.specs.Prelude.{◌≡◌, ◌<◌, ◌^◌, IfOk};
ghost use Rattle.vir_altset.specs.Splits.{IsSplitOf};
ghost use Rattle.vir_profile.specs.Profiles.{restrict, total_weight};
ghost use Rattle.vir_term.specs.Tree.{tree};
ghost use Rattle.vir_mean.specs.Compositions.{joined, loop_of};
ghost use Rattle.vir_mean.specs.Endings.{end_of};
ghost use Rattle.vir_mean.specs.Meaning.{mean};

use crate::compositions::{join_in_parallel, join_in_sequence, revise};
use crate::ending::{Ending, ends_at};
use crate::modules::leaf_result;
use crate::restriction::restricted_lines;
use crate::simple_splits::defer_all;
use std::alloc::{AllocError, Global};
use vir_profile::{AltSet, Entry, Profile, Split};
use vir_term::Term;

// The split that a term gives.
#[cycle(mean)]
fn term_result(
    alloc: Global,
    term: &Term,
    lines: &[Entry],
    domain: &AltSet,
) -> Result<Split, AllocError>
    requires { total_weight lines.now < 2 ^ 64 }
    ensures { IfOk result (λ split. split ≡ mean (tree term.now) domain.now lines.now) }
{
    match term {
        Term::Leaf(leaf) => Ok(leaf_result(leaf, lines, domain)),
        Term::Rev(part) => {
            let split = term_result(alloc, part, lines, domain)?;
            Ok(revise(&split, domain))
        }
        Term::Seq(first, second) => {
            let decided = term_result(alloc, first, lines, domain)?;
            let further = restricted_result(alloc, second, lines, &decided.deferred)?;
            Ok(join_in_sequence(&decided, &further))
        }
        Term::Par(first, second) => {
            let one = term_result(alloc, first, lines, domain)?;
            let other = term_result(alloc, second, lines, domain)?;
            Ok(join_in_parallel(&one, &other))
        }
        Term::Loop { k, body } => loop_result(alloc, Ending::Exactly(*k), body, lines, domain),
        Term::Until { k, body } => loop_result(alloc, Ending::AtMost(*k), body, lines, domain),
    }
}

// The split that a term gives of a set by the lines restricted to it. The copy of the lines is freed
// on return.
#[cycle(mean)]
fn restricted_result(
    alloc: Global,
    term: &Term,
    lines: &[Entry],
    domain: &AltSet,
) -> Result<Split, AllocError>
    requires { total_weight lines.now < 2 ^ 64 }
    ensures { IfOk result (λ split. split ≡ mean (tree term.now) domain.now (restrict domain.now lines.now)) }
{
    let restricted = restricted_lines(alloc, lines, domain)?;
    term_result(alloc, term, &restricted, domain)
}

// The split that a loop gives.
#[cycle(mean)]
fn loop_result(
    alloc: Global,
    ending: Ending,
    body: &Term,
    lines: &[Entry],
    domain: &AltSet,
) -> Result<Split, AllocError>
    requires { total_weight lines.now < 2 ^ 64 }
    ensures { IfOk result (λ split. split ≡ loop_of (end_of ending) (mean (tree body.now)) domain.now lines.now) }
{
    if ends_at(ending, domain) {
        return Ok(defer_all(domain));
    }
    let first = term_result(alloc, body, lines, domain)?;
    if first.deferred.equals(domain) {
        return Ok(first);
    }
    further_turns(alloc, ending, body, lines, first)
}

// What a loop makes of the split that its first turn gave: it goes on with what that defers. Each turn
// restricts the lines that the loop was handed, and each leaves fewer.
#[cycle(mean)]
fn further_turns(
    alloc: Global,
    ending: Ending,
    body: &Term,
    lines: &[Entry],
    first: Split,
) -> Result<Split, AllocError>
    requires { total_weight lines.now < 2 ^ 64 }
    ensures { IfOk result (λ split. split
        ≡ joined first
        (loop_of (end_of ending) (mean (tree body.now)) first.deferred (restrict first.deferred lines.now))) }
{
    let most = first.deferred.count();
    let mut so_far = first;
    for _turn in 0..most {
        if ends_at(ending, &so_far.deferred) {
            return Ok(so_far);
        }
        let next = restricted_result(alloc, body, lines, &so_far.deferred)?;
        if next.deferred.equals(&so_far.deferred) {
            return Ok(so_far);
        }
        so_far = join_in_sequence(&so_far, &next);
    }
    Ok(so_far)
}

/// The split that a term gives of a set, a part of the profile's alternatives, by the ballots
/// restricted to it. It restricts the ballots literally, as the definitions do, so it is slow, and
/// takes memory for one more copy of them at each level at which a sequence or a loop stands in the
/// term. On all alternatives the ballots serve as they are.
pub fn plain_result(
    alloc: Global,
    term: &Term,
    profile: &Profile,
    domain: &AltSet,
) -> Result<Split, AllocError>
    ensures meaning { IfOk result (λ split. split
        ≡ mean (tree term.now) domain.now (restrict domain.now profile.now.lines)) }
    ensures split { IfOk result (IsSplitOf domain.now) }
{
    if domain.equals(&AltSet::all(profile.alternatives())) {
        return term_result(alloc, term, profile.entries(), domain);
    }
    restricted_result(alloc, term, profile.entries(), domain)
}
