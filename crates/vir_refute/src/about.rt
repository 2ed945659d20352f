// Which properties speak of which cases.
ghost use Rattle.std.specs.Prelude.{◌≡◌, ◌↔◌, IsTrue};
ghost use Rattle.vir_refute.specs.Judged.{case_of};
ghost use Rattle.vir_refute.specs.Violations.{is_on_lifts, IsAbout};

use crate::case::Case;
use vir_term::Prop;

/// Whether the property is one of the five on lifts, which speak of pairs of profiles.
pub fn is_on_lifts(prop: Prop) -> bool
    ensures { result ≡ is_on_lifts prop }
{
    matches!(
        prop,
        Prop::Dli | Prop::Imono | Prop::Dimono | Prop::Dmono | Prop::Mono
    )
}

/// Whether the property speaks of cases of this kind. Neutrality speaks of neither kind.
pub fn is_about(prop: Prop, case: &Case) -> bool
    ensures { IsTrue result ↔ IsAbout prop (case_of case.now) }
{
    match case {
        Case::One { .. } => !is_on_lifts(prop) && prop != Prop::Neut,
        Case::Pair { .. } => is_on_lifts(prop),
    }
}
