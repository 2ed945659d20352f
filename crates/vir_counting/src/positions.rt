// What an eliminator rejects and defers of a profile by the weights of places.
ghost use Rattle.std.specs.Prelude.{◌≡◌, []};
ghost use Rattle.vir_altset.specs.Sets.{all};
ghost use Rattle.vir_course.specs.Courses.{Follows};
ghost use Rattle.vir_course.specs.Wordings.{Tells};
ghost use Rattle.vir_positional.specs.Positional.{positional_split};
ghost use Rattle.vir_positional.specs.declared.weight_form.WeightForm.TheVariants.{List as Listed};
ghost use Rattle.vir_counting.specs.Counting.{position_course};

use std::alloc::Global;
use vir_course::{Answer, Stop};
use vir_positional::{Elimination, WeightForm, WeightRule, Weights, positional_split};
use vir_profile::{AltSet, SocFile, Split};
use vir_report::result_text;
use vir_tables::Election;

// The split that the eliminator of this kind gives of all alternatives of the profile.
fn split_by(weights: Weights, kind: Elimination, file: SocFile) -> Split
    ensures { result
        ≡ positional_split kind (Listed weights) (all file.profile.alternatives) file.profile.lines }
{
    let rule = WeightRule::new(WeightForm::List(weights));
    let election = Election::without_table(file);
    let domain = AltSet::all(election.alternatives());
    positional_split(kind, &rule, &election, &domain)
}

/// Answers `position` for weights, a kind of elimination and a profile. No run is made, and no bench is asked.
pub fn position(
    alloc: Global,
    weights: Weights,
    kind: Elimination,
    file: SocFile,
) -> Result<Answer, Stop>
    ensures { Follows Tells ⊥ (position_course weights kind file) [] result }
{
    let split = split_by(weights, kind, file);
    Ok(Answer::Text(result_text(alloc, &split)?))
}
