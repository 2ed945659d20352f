// Ballots restricted to a set, literally.
ghost use Rattle.std.specs.Prelude.{◌≡◌, IfOk, filter};
ghost use Rattle.std.specs.FinSet as set;
ghost use Rattle.vir_profile.specs.Profiles.{restrict};

use std::alloc::{AllocError, Global};
use vir_profile::{AltSet, Ballot, Entry, LIMIT};

// Whether the set has the number, of any size.
fn is_member(domain: &AltSet, x: u16) -> bool
    ensures { result ≡ set.contains domain.now x }
{
    domain.bounded();
    x >= 1 && x <= LIMIT && domain.has(x)
}

// The order with the members of the set alone.
fn restricted_order(alloc: Global, order: &Ballot, domain: &AltSet) -> Result<Ballot, AllocError>
    ensures { IfOk result (λ kept. kept ≡ filter (set.contains domain.now) order.now) }
{
    let mut kept = Vec::new(alloc);
    for i in 0..order.len() {
        let x = order.at(i);
        if is_member(domain, x) {
            kept.push(x)?;
        }
    }
    Ballot::of(alloc, kept)
}

/// The lines with the members of the set alone; their weights and their number stay.
pub fn restricted_lines(
    alloc: Global,
    lines: &[Entry],
    domain: &AltSet,
) -> Result<Vec<Entry>, AllocError>
    ensures { IfOk result (λ kept. kept.items ≡ restrict domain.now lines.now) }
{
    let mut kept = Vec::new(alloc);
    for line in lines {
        let order = restricted_order(alloc, &line.order, domain)?;
        kept.push(Entry {
            weight: line.weight,
            order,
        })?;
    }
    Ok(kept)
}
