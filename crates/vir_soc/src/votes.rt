// Lines of votes.
ghost use Rattle.std.specs.Prelude.{◌≡◌, ◌≤◌, ◌<◌, ℕ, [], List, None, Ok, Err, OnOk, IfOk, IfSome, MatchOption, length};
ghost use Rattle.std.specs.List.{list_any, slice_split};
ghost use Rattle.vir_altset.specs.Sets.{limit};
ghost use Rattle.vir_profile.specs.OrderFaults.{member_fault_after};
ghost use Rattle.vir_profile.specs.Profiles.{voters_limit};
ghost use Rattle.vir_soc.specs.Reader.Answers.{Gives, kind_in};
ghost use Rattle.vir_soc.specs.Reader.Steps.{stop_of};
ghost use Rattle.vir_soc.specs.Reader.UsualLines.{BeginsWithEnd, BeginsWithLine, HasLineFeed};
ghost use Rattle.vir_soc.specs.Votes.{alternative, is_brace, is_comma, order_after, with_order, with_votes};

use crate::bytes::{cut, number, trim};
use crate::kind::SocKind;
use crate::stop::Stop;
use crate::usual::{behind, usual_line};
use std::alloc::Global;
use vir_profile::{AddFault, AltSet, Ballot, Entry, LINES_LIMIT, Profile};

/// The alternative that a part of an order names.
fn alternative(m: u16, part: &[u8]) -> Result<u16, SocKind>
    requires { m ≤ limit }
    ensures exact { result ≡ alternative m part.now }
    ensures range { IfOk result (λ x. (1 ≤ x) × (x ≤ m)) }
{
    let Some(x) = number(trim(part)) else {
        return Err(SocKind::BadEntry);
    };
    if x == 0 || x > u128::from(m) {
        return Err(SocKind::OutOfRange);
    }
    Ok(x as u16)
}

/// The order whose members stand between commas.
fn order(alloc: Global, m: u16, text: &[u8]) -> Result<Vec<u16>, Stop>
    requires { m ≤ limit }
    ensures exact { Gives kind_in (λ order. order.items) result
        (order_after m [] (slice_split is_comma text.now)) }
    ensures known { IfOk result (λ order. member_fault_after m [] order.items ≡ None) }
{
    let mut order = Vec::with_capacity(alloc, usize::from(m))?;
    let mut seen = AltSet::empty();
    let mut rest = text;
    loop {
        let (part, after) = cut(b',', rest);
        let x = match alternative(m, part) {
            Ok(x) => x,
            Err(kind) => return Err(Stop::Kind(kind)),
        };
        if seen.has(x) {
            return Err(Stop::Kind(SocKind::Repeated));
        }
        seen.put(x);
        order.push(x)?;
        match after {
            None => return Ok(order),
            Some(after) => rest = after,
        }
    }
}

fn has_brace(text: &[u8]) -> bool
    ensures { result ≡ list_any is_brace text.now }
{
    text.iter().any(|c| *c == b'{' || *c == b'}')
}

/// Why the profile refused a line.
fn stop_of(fault: AddFault) -> Stop
    ensures { result ≡ stop_of fault }
{
    match fault {
        AddFault::OutOfRange => Stop::Kind(SocKind::OutOfRange),
        AddFault::Repeated => Stop::Kind(SocKind::Repeated),
        AddFault::Short => Stop::Kind(SocKind::Short),
        AddFault::TooManyOrders => Stop::Kind(SocKind::TooManyOrders),
        AddFault::TooManyVoters => Stop::Kind(SocKind::TooManyVoters),
        AddFault::Memory => Stop::Memory,
    }
}

/// Why a line of so many alternatives isn't taken whose count alone is more than a profile may have
/// voters.
fn huge_count_fault(profile: &Profile, members: usize) -> SocKind
    ensures { (count : ℕ) (order : List ℕ) → voters_limit < count → length order ≡ members
        → with_order profile.now.alternatives profile.now.lines count order ≡ Err result }
{
    if members < usize::from(profile.alternatives()) {
        SocKind::Short
    } else if profile.lines() >= LINES_LIMIT {
        SocKind::TooManyOrders
    } else {
        SocKind::TooManyVoters
    }
}

/// Adds a line of this count and of an order none of whose members is at fault. A count above 2^64 is
/// given as 2^64.
fn add(alloc: Global, profile: &mut Profile, count: u128, order: Vec<u16>) -> Result<(), Stop>
    requires { member_fault_after profile.old.alternatives [] order.items ≡ None }
    ensures exact { Gives kind_in (λ _. profile.new.lines) result
        (with_order profile.old.alternatives profile.old.lines count order.items) }
    ensures alternatives { OnOk result (profile.new.alternatives ≡ profile.old.alternatives) }
{
    if count >= 1 << 64 {
        return Err(Stop::Kind(huge_count_fault(profile, order.len())));
    }
    let weight = count as u64;
    let order = Ballot::of(alloc, order)?;
    match profile.add(Entry { weight, order }) {
        Ok(()) => Ok(()),
        Err(refused) => Err(stop_of(refused.fault)),
    }
}

/// What stands behind the end of a line, where the bytes begin with one.
fn behind_end(bytes: &[u8]) -> Option<&[u8]>
    requires { HasLineFeed bytes.now }
    ensures { IfSome result (λ rest. BeginsWithEnd bytes.now rest.now) }
{
    match behind(b'\r', bytes) {
        Some(rest) => behind(b'\n', rest),
        None => behind(b'\n', bytes),
    }
}

/// Takes the line of votes with which the bytes begin, where it has the usual shape and an end, and there is room
/// for it. Gives what stands behind its end.
pub fn take_ended<'a>(alloc: Global, profile: &mut Profile, bytes: &'a [u8]) -> Option<&'a [u8]>
    requires { HasLineFeed bytes.now }
    ensures taken { MatchOption result (profile.new ≡ profile.old) (λ rest.
        BeginsWithLine profile.old.alternatives bytes.now profile.old.lines profile.new.lines rest.now) }
    ensures alternatives { profile.new.alternatives ≡ profile.old.alternatives }
{
    let (line, end) = usual_line(alloc, profile.alternatives(), bytes)?;
    let rest = behind_end(end)?;
    let Ok(()) = profile.add_judged(line) else {
        return None;
    };
    Some(rest)
}

/// Takes a line of votes in whatever shape.
pub fn with_votes(alloc: Global, profile: &mut Profile, text: &[u8]) -> Result<(), Stop>
    ensures exact { Gives kind_in (λ _. profile.new.lines) result
        (with_votes profile.old.alternatives profile.old.lines text.now) }
    ensures alternatives { OnOk result (profile.new.alternatives ≡ profile.old.alternatives) }
{
    let (before, after) = cut(b':', text);
    let Some(rest) = after else {
        return Err(Stop::Kind(SocKind::NoColon));
    };
    let Some(count) = number(trim(before)) else {
        return Err(Stop::Kind(SocKind::BadCount));
    };
    if has_brace(rest) {
        return Err(Stop::Kind(SocKind::Tie));
    }
    let order = order(alloc, profile.alternatives(), rest)?;
    add(alloc, profile, count, order)
}
