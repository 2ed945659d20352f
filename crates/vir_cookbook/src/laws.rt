// What holds of the rules of the cookbook beside what the table of rules derives of them. Each law is the contract
// of a function that does nothing, and is named after the rule.
ghost use Rattle.vir_term.specs.declared.prop.Prop.TheVariants.{Dli, Imono, Dmono, Mono, Cc, Ccomp, Neut};
ghost use Rattle.vir_mean.specs.Meaning.{mean};
ghost use Rattle.vir_mean.specs.Properties.{Holds};
ghost use Rattle.vir_cookbook.specs.Cookbook as rule;

/// Baldwin's rule: it ends in `elect`, so it defers nobody.
#[tactic(auto, using(crate::proofs::Cells::dli_baldwin, crate::proofs::Cells::dmono_baldwin))]
pub fn baldwin()
    ensures dli { Holds Dli (mean rule.baldwin) }
    ensures dmono { Holds Dmono (mean rule.baldwin) }
{}

/// Benham's method: it ends in `elect`, so it defers nobody.
#[tactic(auto, using(crate::proofs::Cells::dli_benham, crate::proofs::Cells::dmono_benham))]
pub fn benham()
    ensures dli { Holds Dli (mean rule.benham) }
    ensures dmono { Holds Dmono (mean rule.benham) }
{}

/// Black's rule: it defers nobody. Its first part keeps its leaders or leaves the lifted one alone, and its second
/// part, the Borda count, is invariant monotone.
pub fn black()
    ensures dli { Holds Dli (mean rule.black) }
    ensures dmono { Holds Dmono (mean rule.black) }
    ensures imono { Holds Imono (mean rule.black) }
    ensures mono { Holds Mono (mean rule.black) }
{}

/// The Borda count: it defers nobody, and it elects those with the greatest Borda score.
pub fn borda()
    ensures dli { Holds Dli (mean rule.borda) }
    ensures dmono { Holds Dmono (mean rule.borda) }
    ensures imono { Holds Imono (mean rule.borda) }
{}

/// Copeland's rule and then the Borda count: it defers nobody. Its first part keeps its leaders or leaves the
/// lifted one alone, and its second part is invariant monotone.
pub fn copeland_then_borda()
    ensures dli { Holds Dli (mean rule.copeland_then_borda) }
    ensures dmono { Holds Dmono (mean rule.copeland_then_borda) }
    ensures imono { Holds Imono (mean rule.copeland_then_borda) }
    ensures mono { Holds Mono (mean rule.copeland_then_borda) }
{}

/// Copeland's rule: it defers nobody, and it elects those with the greatest Copeland score.
pub fn copeland()
    ensures dli { Holds Dli (mean rule.copeland) }
    ensures dmono { Holds Dmono (mean rule.copeland) }
    ensures imono { Holds Imono (mean rule.copeland) }
{}

/// Instant runoff: it ends in `elect`, so it defers nobody.
#[tactic(auto, using(crate::proofs::Cells::dli_instant_runoff, crate::proofs::Cells::dmono_instant_runoff))]
pub fn instant_runoff()
    ensures dli { Holds Dli (mean rule.instant_runoff) }
    ensures dmono { Holds Dmono (mean rule.instant_runoff) }
{}

/// Minimax: it ends in `elect`, so it defers nobody.
#[tactic(auto, using(crate::proofs::Cells::dli_minimax, crate::proofs::Cells::dmono_minimax))]
pub fn minimax()
    ensures dli { Holds Dli (mean rule.minimax) }
    ensures dmono { Holds Dmono (mean rule.minimax) }
{}

/// Nanson's rule in the form of Schwartz: it ends in `elect`, so it defers nobody.
#[tactic(auto, using(crate::proofs::Cells::dli_nanson_schwartz, crate::proofs::Cells::dmono_nanson_schwartz))]
pub fn nanson_schwartz()
    ensures dli { Holds Dli (mean rule.nanson_schwartz) }
    ensures dmono { Holds Dmono (mean rule.nanson_schwartz) }
{}

/// Nanson's rule: it ends in `elect`, so it defers nobody.
#[tactic(auto, using(crate::proofs::Cells::dli_nanson, crate::proofs::Cells::dmono_nanson))]
pub fn nanson()
    ensures dli { Holds Dli (mean rule.nanson) }
    ensures dmono { Holds Dmono (mean rule.nanson) }
{}

/// Plurality, and then `elect` on nobody: it is the same rule as plurality, which is invariant monotone.
pub fn plurality_then_elect()
    ensures imono { Holds Imono (mean rule.plurality_then_elect) }
    ensures mono { Holds Mono (mean rule.plurality_then_elect) }
{}

/// Raynaud's rule: it ends in `elect`, so it defers nobody.
#[tactic(auto, using(crate::proofs::Cells::dli_raynaud, crate::proofs::Cells::dmono_raynaud))]
pub fn raynaud()
    ensures dli { Holds Dli (mean rule.raynaud) }
    ensures dmono { Holds Dmono (mean rule.raynaud) }
{}

/// Sequential majority comparison, by the cookbook's agenda. It isn't neutral, and no case of `refute` can show
/// that.
pub fn sequential_majority()
    ensures cc { Holds Cc (mean rule.sequential_majority) }
    ensures ccomp { Holds Ccomp (mean rule.sequential_majority) }
    ensures imono { Holds Imono (mean rule.sequential_majority) }
    ensures neut { Holds Neut (mean rule.sequential_majority) → ⊥ }
{}

/// A shortlist of two: it elects nobody.
#[tactic(auto, using(crate::proofs::Cells::imono_shortlist_of_two))]
pub fn shortlist_of_two()
    ensures { Holds Imono (mean rule.shortlist_of_two) }
{}

/// A shortlist by two rules: neither of them defers anybody.
#[tactic(auto, using(crate::proofs::Cells::dli_shortlist, crate::proofs::Cells::dmono_shortlist))]
pub fn shortlist()
    ensures dli { Holds Dli (mean rule.shortlist) }
    ensures dmono { Holds Dmono (mean rule.shortlist) }
{}

/// A runoff between two: it ends in `plurality`, so it defers nobody.
#[tactic(auto, using(crate::proofs::Cells::dli_two_candidate_runoff, crate::proofs::Cells::dmono_two_candidate_runoff))]
pub fn two_candidate_runoff()
    ensures dli { Holds Dli (mean rule.two_candidate_runoff) }
    ensures dmono { Holds Dmono (mean rule.two_candidate_runoff) }
{}
