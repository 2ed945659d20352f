// The split that a rule gives of all alternatives of a profile.
ghost use Rattle.std.specs.Prelude.{◌≡◌, IfOk};
ghost use Rattle.vir_term.specs.Tree.{tree};
ghost use Rattle.vir_mean.specs.Meaning.{mean};
ghost use Rattle.vir_refute.specs.Cases.{split_by};
ghost use Rattle.vir_refute.specs.Judged.{election_of};

use std::alloc::{AllocError, Global};
use vir_mean::plain_result;
use vir_profile::{AltSet, Profile, Split};
use vir_term::Term;

/// The split that a rule gives of all alternatives.
pub fn split_of(alloc: Global, term: &Term, profile: &Profile) -> Result<Split, AllocError>
    ensures { IfOk result (λ split. split ≡ split_by (mean (tree term.now)) (election_of profile.now)) }
{
    let all = AltSet::all(profile.alternatives());
    plain_result(alloc, term, profile, &all)
}
