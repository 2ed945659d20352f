// Profiles with one more line.
ghost use Rattle.std.specs.Prelude.{◌≡◌, ◌-◌, [], ◌∷◌, ◌++◌, IfOk};
ghost use Rattle.vir_find.specs.Spreads.{with_line};

use std::alloc::{AllocError, Global};
use vir_profile::{Ballot, Entry, NARROW, Profile};

// Appends a line. A line that the profile refuses counts as want of memory here.
pub(crate) fn add_line(
    profile: &mut Profile,
    alloc: Global,
    weight: u64,
    order: &[u16],
) -> Result<(), AllocError>
    ensures { IfOk result (λ _. profile.new ≡ record profile.old {
      lines = profile.old.lines ++ record { weight = weight; order = order.now } ∷ [];
    }) }
{
    let order = Ballot::from_slice(alloc, order)?;
    match profile.add(Entry { weight, order }) {
        Ok(()) => Ok(()),
        Err(_) => Err(AllocError),
    }
}

// Appends the line of a profile.
fn add_copy(profile: &mut Profile, alloc: Global, line: &Entry) -> Result<(), AllocError>
    ensures { IfOk result (λ _. profile.new ≡ record profile.old { lines = profile.old.lines ++ line.now ∷ [] }) }
{
    let mut room = [0; NARROW];
    add_line(
        profile,
        alloc,
        line.weight,
        line.order.alternatives(&mut room),
    )
}

// Appends the lines of a profile.
pub(crate) fn add_copies(
    profile: &mut Profile,
    alloc: Global,
    lines: &[Entry],
) -> Result<(), AllocError>
    ensures { IfOk result (λ _. profile.new ≡ record profile.old { lines = profile.old.lines ++ lines.now }) }
{
    for line in lines {
        add_copy(profile, alloc, line)?;
    }
    Ok(())
}

// Appends the line without one of its voters, if there are others.
pub(crate) fn add_others(
    profile: &mut Profile,
    alloc: Global,
    line: &Entry,
) -> Result<(), AllocError>
    ensures { IfOk result (λ _. profile.new ≡ record profile.old {
      lines = profile.old.lines ++ with_line (line.now.weight - 1) line.now.order [];
    }) }
{
    let weight = line.weight.saturating_sub(1);
    if weight == 0 {
        return Ok(());
    }
    let mut room = [0; NARROW];
    add_line(profile, alloc, weight, line.order.alternatives(&mut room))
}

/// The same profile.
pub(crate) fn copy(alloc: Global, profile: &Profile) -> Result<Profile, AllocError>
    ensures { IfOk result (λ copy. copy ≡ profile.now) }
{
    let mut copy = Profile::new(alloc, profile.alternatives());
    for line in profile.entries() {
        add_copy(&mut copy, alloc, line)?;
    }
    Ok(copy)
}

/// The profile with one more line, if somebody casts it.
pub(crate) fn with_line(
    alloc: Global,
    profile: &Profile,
    weight: u64,
    order: &[u16],
) -> Result<Profile, AllocError>
    ensures { IfOk result (λ more. more ≡ record profile.now {
      lines = profile.now.lines ++ with_line weight order.now [];
    }) }
{
    let mut more = copy(alloc, profile)?;
    if weight > 0 {
        add_line(&mut more, alloc, weight, order)?;
    }
    Ok(more)
}
