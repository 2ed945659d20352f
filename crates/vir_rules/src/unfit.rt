// What can be wrong with a node of a derivation.
ghost use Rattle.std.specs.Prelude.{◌≡◌};
ghost use Rattle.vir_rules.specs.UnfitNames.{unfit_name};

/// Why a node of a derivation is bad.
#[derive(Clone, Copy, Debug, PartialEq, Eq)]
pub enum Unfit {
    /// Its rule doesn't fit the judgement.
    RuleDoesNotFit,
    /// Its rule fits, and has another number of premises than the node has children.
    WrongNumberOfPremises,
}

impl Unfit {
    /// The variant's name, as it is written here.
    pub fn name(self) -> &'static str
        ensures { result.now ≡ unfit_name self }
    {
        match self {
            Unfit::RuleDoesNotFit => "RuleDoesNotFit",
            Unfit::WrongNumberOfPremises => "WrongNumberOfPremises",
        }
    }
}
