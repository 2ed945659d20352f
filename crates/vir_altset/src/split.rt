// What a step of a count makes of a set of alternatives.
use crate::AltSet;

/// What one step of a count makes of a set of alternatives: three sets which no two have a member
/// in common, and which together make up the set. `IsSplitOf` of `specs/Splits.antt` says so.
#[derive(Clone, Copy)]
pub struct Split {
    /// Those that win.
    pub elected: AltSet,
    /// Those that are out.
    pub rejected: AltSet,
    /// Those that are left to a later step.
    pub deferred: AltSet,
}
