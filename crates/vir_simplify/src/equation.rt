// The equations between terms.
ghost use Rattle.std.specs.Prelude.{◌≡◌};
ghost use Rattle.vir_simplify.specs.Names.{equation_text};

/// An equation between terms: its left side and its right side have the same meaning, so the right one may
/// stand in place of the left one.
#[derive(Clone, Copy, Debug, PartialEq, Eq)]
pub enum Equation {
    /// `seq(defer,m)` is `m`.
    SeqDeferLeft,
    /// `seq(m,defer)` is `m`.
    SeqDeferRight,
    /// `seq(elect,m)` is `elect`.
    SeqElect,
    /// `seq(plurality,m)` is `plurality`.
    SeqPlurality,
    /// `seq(rev(defer),m)` is `rev(defer)`.
    SeqNobody,
    /// `rev(elect)` is `defer`.
    RevElect,
    /// `rev(rev(m))` is `rev(defer)`.
    RevRev,
    /// `par(m,m)` is `m`.
    ParSame,
    /// `par(elect,m)` is `elect`.
    ParElectLeft,
    /// `par(m,elect)` is `elect`.
    ParElectRight,
    /// `par(rev(defer),m)` is `m`.
    ParNobodyLeft,
    /// `par(m,rev(defer))` is `m`.
    ParNobodyRight,
    /// `loop(k,defer)` is `defer`.
    LoopDefer,
    /// `loop(k,loop(k,m))` is `loop(k,m)`.
    LoopLoop,
    /// `until(k,defer)` is `defer`.
    UntilDefer,
    /// `until(k,until(k,m))` is `until(k,m)`.
    UntilUntil,
    /// `seq(seq(m,n),t)` is `seq(m,seq(n,t))`.
    SeqAssocRight,
    /// `seq(m,seq(n,t))` is `seq(seq(m,n),t)`.
    SeqAssocLeft,
}

impl Equation {
    /// The equation's name.
    pub fn name(self) -> &'static str
        ensures { result.now ≡ equation_text self }
    {
        match self {
            Equation::SeqDeferLeft => "seq-defer-left",
            Equation::SeqDeferRight => "seq-defer-right",
            Equation::SeqElect => "seq-elect",
            Equation::SeqPlurality => "seq-plurality",
            Equation::SeqNobody => "seq-nobody",
            Equation::RevElect => "rev-elect",
            Equation::RevRev => "rev-rev",
            Equation::ParSame => "par-same",
            Equation::ParElectLeft => "par-elect-left",
            Equation::ParElectRight => "par-elect-right",
            Equation::ParNobodyLeft => "par-nobody-left",
            Equation::ParNobodyRight => "par-nobody-right",
            Equation::LoopDefer => "loop-defer",
            Equation::LoopLoop => "loop-loop",
            Equation::UntilDefer => "until-defer",
            Equation::UntilUntil => "until-until",
            Equation::SeqAssocRight => "seq-assoc-right",
            Equation::SeqAssocLeft => "seq-assoc-left",
        }
    }
}
