// What is derivable of a term, as one value.
ghost use Rattle.std.specs.Prelude.{◌≢◌, Some};

/// What is derivable of a term: of each property without a number whether it is, and of the others all
/// numbers with which it is. `elim` is derivable with no number but 1, `defers` with 1 and at most one
/// other, and `rejects` with at most one.
#[derive(Clone, Copy, Debug, PartialEq, Eq, Hash)]
pub struct DerivableProps {
    pub ne: bool,
    pub ea: bool,
    pub el: bool,
    /// `defers` with 1.
    pub defers_one: bool,
    /// The other number, not 1, with which `defers` is derivable.
    pub defers_other: Option<u32>,
    /// The number with which `rejects` is derivable.
    pub rejects: Option<u32>,
    /// `elim` with 1.
    pub elim_one: bool,
    pub nb: bool,
    pub decr: bool,
    pub dli: bool,
    pub imono: bool,
    pub dimono: bool,
    pub dmono: bool,
    pub mono: bool,
    pub cc: bool,
    pub dcc: bool,
    pub cprog: bool,
    pub ccomp: bool,
    pub neut: bool,
    ghost other: { defers_other ≢ Some 1 },
}
