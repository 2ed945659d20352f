// Sets of three alternatives, and the profile without a line.
use vir_profile::AltSet;
use vir_samples::Votes;

/// Nobody votes.
pub const SILENT: Votes<'static> = &[];

/// The set of these alternatives.
pub fn set_of(members: &[u16]) -> AltSet {
    let mut set = AltSet::empty();
    for x in members {
        if *x >= 1 && *x <= 3 {
            set.put(*x);
        }
    }
    set
}
