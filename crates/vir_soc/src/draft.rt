// What the lines read so far say.
ghost use Rattle.std.specs.Prelude.{◌≡◌, OnOk};
ghost use Rattle.vir_soc.specs.Content.{nothing};
ghost use Rattle.vir_soc.specs.Reader.Answers.{Follows};
ghost use Rattle.vir_soc.specs.Reader.Steps.{alternatives_taken};
ghost use Rattle.vir_soc.specs.Reader.Views.{alternatives_of, content_of, votes_of};

use crate::kind::SocKind;
use crate::names::Names;
use crate::stated::{Stated, alternatives_stated};
use std::alloc::Global;
use vir_profile::Profile;

/// The content of the lines so far. The profile is there once the number of alternatives is stated.
#[derive(Drop)]
pub struct Draft {
    pub profile: Option<Profile>,
    pub voters: Option<Stated>,
    pub orders: Option<Stated>,
    pub names: Names,
}

impl Draft {
    /// The content of no lines.
    pub fn new(alloc: Global) -> Draft
        ensures { content_of result ≡ nothing }
    {
        Draft {
            profile: None,
            voters: None,
            orders: None,
            names: Names::new(alloc),
        }
    }
}

/// The number of alternatives, once it is stated.
fn count_of(profile: &Option<Profile>) -> Option<u16>
    ensures { result ≡ alternatives_of profile.now }
{
    match profile {
        None => None,
        Some(profile) => Some(profile.alternatives()),
    }
}

/// Takes the number of alternatives from the value of a metadata line.
pub fn take_alternatives(
    alloc: Global,
    profile: &mut Option<Profile>,
    value: &[u8],
) -> Result<(), SocKind>
    ensures count { Follows (λ _. alternatives_of profile.new) result
        (alternatives_taken (alternatives_of profile.old) value.now) }
    ensures votes { OnOk result (votes_of profile.new ≡ votes_of profile.old) }
{
    let earlier = count_of(profile);
    let m = alternatives_stated(earlier, value)?;
    if earlier.is_none() {
        *profile = Some(Profile::new(alloc, m));
    }
    Ok(())
}
