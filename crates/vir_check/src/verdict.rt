// What the checker says.
use vir_rules::Unfit;

/// What is said of a derivation that is to derive a judgement.
#[derive(Clone, Copy, Debug, PartialEq, Eq)]
pub enum Verdict {
    /// It is valid.
    Accepted,
    /// It isn't, and this is its first bad node: its number in preorder, the root's being 0, and what is
    /// wrong with it.
    Refused { node: u64, why: Unfit },
}
