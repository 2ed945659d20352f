// A form of weights that gives its own weights.
ghost use Rattle.std.specs.Prelude.{◌≡◌, ◌<◌, ◌≤◌, true};
ghost use Rattle.std.specs.FinSet as set;
ghost use Rattle.vir_altset.specs.Sets.{all, IsPart};
ghost use Rattle.vir_profile.specs.Profiles.{restrict};
ghost use Rattle.vir_positional.specs.Positional.{positional};
ghost use Rattle.vir_positional.specs.Weights.{weight_of};

use crate::scores::positional_score;
use crate::weighing::Weighing;
use crate::weight_form::{WeightForm, weight_of};
use std::marker::Model;
use vir_profile::AltSet;
use vir_tables::Election;

/// A form of weights, whose weights are found by [`weight_of`]. It is seen as the form.
#[derive(Debug, Drop)]
pub struct WeightRule {
    form: WeightForm,
}

impl Model for WeightRule {
    ghost use Rattle.vir_positional.specs.declared.weight_form.WeightForm.{WeightForm};

    ghost Value = { WeightForm };

    ghost view = { λ rule. rule.form };
}

impl WeightRule {
    /// The rule of this form.
    pub fn new(form: WeightForm) -> WeightRule
        ensures { result ≡ form }
    {
        WeightRule { form }
    }

    /// The score of a member of the domain, by the ballots restricted to it.
    pub fn score(&self, election: &Election, domain: &AltSet, x: u16) -> i128
        requires part { IsPart domain.now (all election.now.profile.alternatives) }
        requires member { set.contains domain.now x ≡ true }
        ensures { result ≡ positional self.now domain.now (restrict domain.now election.now.profile.lines) x }
    {
        positional_score(self, election, domain, x)
    }
}

impl Weighing for WeightRule {
    ghost kept = { λ form. form };

    fn form(&self) -> &WeightForm {
        &self.form
    }

    fn weight(&self, place: u16, places: u16) -> u64 {
        weight_of(&self.form, place, places)
    }
}
