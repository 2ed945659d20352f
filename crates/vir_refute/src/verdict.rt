// What is said of a case.
ghost use Rattle.std.specs.Prelude.{◌≡◌};
ghost use Rattle.vir_refute.specs.ReasonNames.{reason_name};

/// Whether a case violates a property of a rule.
#[derive(Clone, Copy, Debug, PartialEq, Eq)]
pub enum CaseVerdict {
    /// It does, so the rule doesn't have the property.
    Violated,
    /// It doesn't, for this reason. The rule may lack the property all the same.
    NotViolated(Reason),
}

/// Why a case doesn't violate a property: the first of these that is true.
#[derive(Clone, Copy, Debug, PartialEq, Eq)]
pub enum Reason {
    /// The second profile isn't the first one with that alternative lifted.
    NotALift,
    /// The property asks nothing of this case.
    PremiseNotMet,
    /// What the property asks of this case is so.
    ClauseHolds,
}

impl Reason {
    /// The variant's name, as it is written here.
    pub fn name(self) -> &'static str
        ensures { result.now ≡ reason_name self }
    {
        match self {
            Reason::NotALift => "NotALift",
            Reason::PremiseNotMet => "PremiseNotMet",
            Reason::ClauseHolds => "ClauseHolds",
        }
    }
}
