// The forms in which weights are given.
ghost use Rattle.std.specs.Prelude.{◌≡◌, ◌<◌, ◌≤◌};
ghost use Rattle.vir_positional.specs.Weights.{weight_of, IsForm};

use crate::weights::Weights;

/// How the places of a ballot are weighed.
#[derive(Debug, Drop)]
pub enum WeightForm {
    /// The front has 1, and each other place 0.
    Plurality,
    /// Each place has the number of places behind it.
    Borda,
    /// Each place has the weight of the list at it, and past the list's end its last one.
    List(Weights),
}

impl WeightForm {
    /// Does nothing. Its clause tells a caller that a list of the form is one of weights.
    pub fn bounded(&self)
        ensures { IsForm self.now }
    {
        if let WeightForm::List(weights) = self {
            weights.bounded();
        }
    }
}

/// The weight of a place, counted from 0, among so many places.
pub fn weight_of(form: &WeightForm, place: u16, places: u16) -> u64
    requires few { places ≤ 1024 }
    requires within { place < places }
    ensures { result ≡ weight_of form.now place places }
{
    match form {
        WeightForm::Plurality => u64::from(place == 0),
        WeightForm::Borda => u64::from(places - 1 - place),
        WeightForm::List(weights) => weights.at(usize::from(place)).unwrap_or(weights.last()),
    }
}
