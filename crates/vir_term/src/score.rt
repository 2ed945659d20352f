// What eliminators measure by.
ghost use Rattle.std.specs.Prelude.{◌≡◌, ◌↔◌, IsTrue};
ghost use Rattle.vir_term.specs.Text.{score_text};

/// What eliminators measure an alternative by, among the alternatives of a set.
#[derive(Clone, Copy, Debug, PartialEq, Eq)]
pub enum Score {
    /// How many voters put it first.
    Plurality,
    /// How many voters put it before another alternative, added up over the others.
    Borda,
    /// How many alternatives it beats, less the number of those that beat it.
    Copeland,
    /// How many voters put it before another alternative, where these are fewest.
    Minimax,
    /// 1 where it is the Condorcet winner, else 0.
    Condorcet,
}

impl Score {
    /// The word of the rule language.
    pub fn name(self) -> &'static str
        ensures { result.now ≡ score_text self }
    {
        match self {
            Score::Plurality => "plurality",
            Score::Borda => "borda",
            Score::Copeland => "copeland",
            Score::Minimax => "minimax",
            Score::Condorcet => "condorcet",
        }
    }

    // Whether the two scores are one.
    pub(crate) fn equals(self, other: Score) -> bool
        ensures { IsTrue result ↔ (self ≡ other) }
    {
        self == other
    }
}
