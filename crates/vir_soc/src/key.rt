// Keys of metadata.

/// The keys of metadata that count.
#[derive(Clone, Copy)]
pub enum Key {
    /// What kind of data the file holds.
    DataType,
    /// The number of alternatives.
    Alternatives,
    /// The number of voters.
    Voters,
    /// The number of orders.
    Orders,
    /// The name of this alternative.
    NameOf(u16),
    /// Any other key.
    Other,
}
