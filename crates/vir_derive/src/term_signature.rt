// The signature of a term, as one value.
ghost use Rattle.vir_derive.specs.Numbers.{AreEnough, is_listed};

use crate::derivable_props::DerivableProps;
use crate::kept_head::Head;

/// The signature of a term for some numbers, which have 1 and 2. It holds the derivable properties that have
/// no number or one of these, and the head, which is the `pass` or `drop` that is reached in the first part
/// of each sequence and the body of each revision.
///
/// Two signatures for the same numbers are equal just where they hold the same properties and the same head
/// (`laws::equal_signatures_say_the_same`), so that a set of them holds each but once.
#[derive(Debug, PartialEq, Eq, Hash, Drop)]
pub struct Signature {
    pub(crate) numbers: Vec<u32>,
    pub(crate) props: DerivableProps,
    pub(crate) head: Option<Head>,
    ghost enough: { AreEnough (is_listed numbers.items) },
}
