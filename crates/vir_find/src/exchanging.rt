// Profiles and splits in which an alternative and the next one change names.
ghost use Rattle.std.specs.Prelude.{◌≡◌, ◌≤◌, ◌<◌, ◌↔◌, [], ◌∷◌, ◌++◌, map, IfOk, IsTrue};
ghost use Rattle.vir_altset.specs.Sets.{limit};
ghost use Rattle.vir_mean.specs.Neutrality.{renamed_set, renamed_lines, renamed_split};
ghost use Rattle.vir_find.specs.Exchanges.{exchanging};

use crate::copying::add_line;
use std::alloc::{AllocError, Global};
use vir_profile::{AltSet, Entry, NARROW, Profile, Split};
use vir_refute::same_split;

// The new name of x, where i and the next number change names.
fn new_name(i: u16, x: u16) -> u16
    requires { i < limit }
    ensures { result ≡ exchanging i x }
{
    if x == i {
        i + 1
    } else if x == i + 1 {
        i
    } else {
        x
    }
}

// The order with the new names.
fn exchanged_order(alloc: Global, i: u16, order: &[u16]) -> Result<Vec<u16>, AllocError>
    requires { i < limit }
    ensures { IfOk result (λ renamed. renamed.items ≡ map (exchanging i) order.now) }
{
    let mut renamed = Vec::new(alloc);
    for x in order {
        renamed.push(new_name(i, *x))?;
    }
    Ok(renamed)
}

// Appends the line with the new names.
fn add_exchanged(
    profile: &mut Profile,
    alloc: Global,
    i: u16,
    line: &Entry,
) -> Result<(), AllocError>
    requires { i < limit }
    ensures { IfOk result (λ _. profile.new ≡ record profile.old {
      lines = profile.old.lines ++ record { weight = line.now.weight; order = map (exchanging i) line.now.order } ∷ [];
    }) }
{
    let mut room = [0; NARROW];
    let renamed = exchanged_order(alloc, i, line.order.alternatives(&mut room))?;
    add_line(profile, alloc, line.weight, &renamed)
}

/// The profile with the new names.
pub(crate) fn exchanged_profile(
    alloc: Global,
    i: u16,
    profile: &Profile,
) -> Result<Profile, AllocError>
    requires { i < limit }
    ensures { IfOk result (λ other. other ≡ record profile.now {
      lines = renamed_lines (exchanging i) profile.now.lines;
    }) }
{
    let mut other = Profile::new(alloc, profile.alternatives());
    for line in profile.entries() {
        add_exchanged(&mut other, alloc, i, line)?;
    }
    Ok(other)
}

// The set with the new names.
fn exchanged_set(i: u16, a: &AltSet) -> AltSet
    requires { (1 ≤ i) × (i < limit) }
    ensures { result ≡ renamed_set (exchanging i) a.now }
{
    let second = a.has(i + 1);
    if a.has(i) {
        if second { *a } else { a.without(i).with(i + 1) }
    } else if second {
        a.without(i + 1).with(i)
    } else {
        *a
    }
}

/// Whether the second split is the first one with the new names.
pub(crate) fn is_exchanged(i: u16, before: &Split, after: &Split) -> bool
    requires { (1 ≤ i) × (i < limit) }
    ensures { IsTrue result ↔ (after.now ≡ renamed_split (exchanging i) before.now) }
{
    let exchanged = Split {
        elected: exchanged_set(i, &before.elected),
        rejected: exchanged_set(i, &before.rejected),
        deferred: exchanged_set(i, &before.deferred),
    };
    same_split(after, &exchanged)
}
