//! Voting rules as terms: modules, and what is composed of them.
//!
//! A rule is built of electoral modules by composition, as in Diekhoff, Kirsten and Krämer,
//! "Verified Construction of Fair Voting Rules" (LOPSTR 2019). This layer knows how such a term is
//! built, how large it is, and how it is written; what it elects is the business of `vir_mean`. Its
//! one contract: a `Term` is seen as a pure tree (`specs/Tree.antt`), of which `size`, `equals` and
//! `copy` speak exactly; `within_limits` tells of any term whether it is within the limits
//! (`specs/Limits.antt`); and `print` and `push_term` give its text (`specs/Text.antt`). The calls that begin with
//! `push` append to a text, and what stood there stays, also where memory runs out (`specs/Appending.antt`).
//! A `FixedOrder` is its list of alternatives, without repeats. A `Prop` names a property of rules, which
//! `vir_mean` defines; `Prop::all` lists them in their order. It stands on std, and on `itoa` for numbers.
#![tactic(auto)]

mod fixed_order;
mod leaf;
mod limits;
mod number;
mod prop;
mod score;
mod term;
#[cfg(test)]
mod tests;
mod text;

pub use fixed_order::{FixedOrder, MEMBER_LIMIT, OrderFault};
pub use leaf::{Leaf, LeafKind};
pub use limits::{COUNT_LIMIT, NESTING_LIMIT, SIZE_LIMIT, is_count};
pub use number::push_number;
pub use prop::Prop;
pub use score::Score;
pub use term::Term;
pub use text::{push_leaf, push_term};
