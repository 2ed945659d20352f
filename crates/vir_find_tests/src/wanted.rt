// What a search is to find.
use vir_find::FoundCase;
use vir_profile::{NARROW, Profile};

/// How many voters cast which order.
pub type Lines = &'static [(u64, &'static [u16])];

/// What is wanted of a search: the number of alternatives of the case, and what it holds.
#[derive(Clone, Copy)]
pub enum Wanted {
    Nothing,
    One(u16, Lines),
    Pair(u16, Lines, Lines, u16),
    Exchanged(u16, Lines, u16),
}

// Whether the profile has so many alternatives and these lines.
fn is_profile(profile: &Profile, alternatives: u16, lines: Lines) -> bool {
    let mut room = [0; NARROW];
    if profile.alternatives() != alternatives || profile.lines() != lines.len() {
        return false;
    }
    for (line, (weight, order)) in profile.entries().iter().zip(lines) {
        if line.weight != *weight || line.order.alternatives(&mut room) != *order {
            return false;
        }
    }
    true
}

/// Whether a search found what is wanted.
pub fn is_wanted(found: &Option<FoundCase>, wanted: Wanted) -> bool {
    match (found, wanted) {
        (None, Wanted::Nothing) => true,
        (Some(FoundCase::One { profile }), Wanted::One(m, lines)) => is_profile(profile, m, lines),
        (
            Some(
                FoundCase::Pair {
                    first,
                    second,
                    lifted,
                },
            ),
            Wanted::Pair(m, before, after, x),
        ) => is_profile(first, m, before) && is_profile(second, m, after) && *lifted == x,
        (Some(FoundCase::Exchanged { profile, lower }), Wanted::Exchanged(m, lines, x)) => {
            is_profile(profile, m, lines) && *lower == x
        }
        _ => false,
    }
}
