// Lines that a profile refuses, and why.
use crate::ballot::Entry;

/// Why a line isn't added to a profile. Of several faults the first in this order is named.
#[derive(Clone, Copy, Debug, PartialEq, Eq)]
pub enum AddFault {
    /// The first member of the order that offends is no alternative of the profile.
    OutOfRange,
    /// The first member of the order that offends stands further to the front already.
    Repeated,
    /// An alternative is missing.
    Short,
    /// The profile has 1,000,000 lines.
    TooManyOrders,
    /// The weights would add up to more than 2^64 - 1.
    TooManyVoters,
    /// Memory is wanting.
    Memory,
}

/// A line that wasn't added, with the reason. The line is handed back as it was.
#[derive(Debug, Drop)]
pub struct Refused {
    pub fault: AddFault,
    pub entry: Entry,
}
