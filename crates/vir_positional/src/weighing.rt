// Objects that give the weights of a form.
ghost use Rattle.std.specs.Prelude.{◌≡◌, ◌<◌, ◌≤◌};
ghost use Rattle.vir_positional.specs.Weights.{weight_of};

use crate::weight_form::WeightForm;

/// An object that gives weights. Its form is a promise: the weights that it gives are proved to be those
/// of that form, however it finds them.
pub trait Weighing: Drop {
    ghost use Rattle.vir_positional.specs.declared.weight_form.WeightForm.{WeightForm};

    /// The form whose weights it gives.
    ghost kept: { Self → WeightForm };

    /// The form whose weights it gives.
    fn form(&self) -> &WeightForm
        ensures { result.now ≡ kept self.now };

    /// The weight of a place, counted from 0, among so many places.
    fn weight(&self, place: u16, places: u16) -> u64
        requires few { places ≤ 1024 }
        requires within { place < places }
        ensures { result ≡ weight_of (kept self.now) place places };
}
