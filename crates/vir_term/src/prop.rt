// The properties of rules, as names.
ghost use Rattle.std.specs.Prelude.{◌≡◌};
ghost use Rattle.vir_term.specs.Props.{all_props};

/// A property of a voting rule: what its splits are like on every finite set of alternatives and every
/// profile on it. What each one says is defined where rules have a meaning, in
/// `vir_mean/specs/Properties.antt`. A number is one that a module may name too: from 1 to
/// `COUNT_LIMIT`.
#[derive(Clone, Copy, Debug, PartialEq, Eq)]
pub enum Prop {
    /// Electing nobody.
    Ne,
    /// Electing all alternatives.
    Ea,
    /// Electing somebody.
    El,
    /// Deferring just so many.
    Defers(u32),
    /// Rejecting just so many.
    Rejects(u32),
    /// Rejecting just so many where there are more.
    Elim(u32),
    /// Not rejecting all: never blocking.
    Nb,
    /// Rejecting somebody where there are two or more: decreasing.
    Decr,
    /// Deferred-lift invariance: a lift of a deferred alternative changes nothing.
    Dli,
    /// Invariant monotonicity: a lift of an elected alternative leaves the elected as they are, or leaves
    /// it as the only one.
    Imono,
    /// Deferred invariant monotonicity: the same of deferred alternatives, where nobody is elected.
    Dimono,
    /// Deferred monotonicity: a lift of a deferred alternative leaves it deferred.
    Dmono,
    /// Monotonicity: a lift of an elected alternative leaves it elected.
    Mono,
    /// Condorcet consistency: a Condorcet winner alone is elected, and the others are rejected.
    Cc,
    /// Deferred Condorcet consistency: a Condorcet winner alone is deferred, and the others are rejected.
    Dcc,
    /// Condorcet progress: a Condorcet winner stays deferred, nobody is elected, and somebody else goes.
    Cprog,
    /// Condorcet compatibility: a Condorcet winner isn't rejected, and no other alternative is elected.
    Ccomp,
    /// Neutrality: the result on renamed alternatives is the renamed result.
    Neut,
}

static ALL: [Prop; 18] = [
    Prop::Ne,
    Prop::Ea,
    Prop::El,
    Prop::Defers(1),
    Prop::Rejects(1),
    Prop::Elim(1),
    Prop::Nb,
    Prop::Decr,
    Prop::Dli,
    Prop::Imono,
    Prop::Dimono,
    Prop::Dmono,
    Prop::Mono,
    Prop::Cc,
    Prop::Dcc,
    Prop::Cprog,
    Prop::Ccomp,
    Prop::Neut,
];

impl Prop {
    /// All properties in their order, those of a number at the number 1.
    pub fn all() -> &'static [Prop]
        ensures { result.now ≡ all_props }
    {
        &ALL
    }
}
