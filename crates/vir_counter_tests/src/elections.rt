// Elections of three alternatives.
use std::alloc::Global;
use std::test::Fail;
use vir_profile::SocFile;
use vir_samples::{Votes, profile_of};
use vir_tables::Election;

/// The election of these votes.
pub fn election_of(alloc: Global, votes: Votes<'_>) -> Result<Election, Fail> {
    let file = SocFile::of(profile_of(alloc, votes)?, Vec::new(alloc));
    Ok(Election::of(alloc, file)?)
}
