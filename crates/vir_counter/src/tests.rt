// Each counter in a box, on a small election.
use crate::{Counter, EliminatorCounter, FixedCounter, OrderCounter, PluralityCounter};
use std::alloc::Global;
use std::process::Abort;
use std::test::Fail;
use vir_profile::{AltSet, Ballot, Entry, Profile, SocFile};
use vir_score::KeptScore;
use vir_tables::Election;
use vir_term::{FixedOrder, Leaf, Score};

// How many voters cast which order: 2 beats both others, and 1 loses to both.
const VOTES: &[(u64, [u16; 3])] = &[(4, [1, 2, 3]), (3, [2, 3, 1]), (2, [3, 2, 1])];

// What becomes of an alternative.
#[derive(Clone, Copy, Debug, PartialEq, Eq)]
enum Fate {
    Elected,
    Rejected,
    Deferred,
}

use Fate::{Deferred, Elected, Rejected};

fn election_of(alloc: Global, votes: &[(u64, [u16; 3])]) -> Result<Election, Fail> {
    let mut profile = Profile::new(alloc, 3);
    for (weight, order) in votes {
        let order = Ballot::from_slice(alloc, order)?;
        let weight = *weight;
        profile
            .add(Entry { weight, order })
            .map_err(|refused| refused.fault)?;
    }
    Ok(Election::of(alloc, SocFile::of(profile, Vec::new(alloc)))?)
}

// A module that none of the counters here serves.
const OTHER: Leaf = Leaf::Min(Score::Borda);

// The counter has no calls, serves the module, gives this split again and again, and counts that.
fn expect_counted(
    rt: &impl Abort,
    mut counter: Box<dyn Counter>,
    leaf: &Leaf,
    election: &Election,
    expected: &[Fate; 3],
) {
    let domain = AltSet::all(election.alternatives());
    assert!(rt; counter.calls() == 0);
    assert!(rt; !counter.serves(&OTHER));
    for calls in 1..3u64 {
        assert!(rt; counter.serves(leaf), "{leaf:?}");
        let split = counter.split(leaf, election, &domain);
        for x in 1..4u16 {
            let fate = expected[usize::from(x) - 1];
            assert!(rt; split.elected.has(x) == (fate == Elected), "{leaf:?}: {x}");
            assert!(rt;
                split.rejected.has(x) == (fate == Rejected),
                "{leaf:?}: {x}"
            );
            assert!(rt;
                split.deferred.has(x) == (fate == Deferred),
                "{leaf:?}: {x}"
            );
        }
        assert!(rt; counter.calls() == calls);
    }
}

#[test]
fn boxed_counters_split_and_count(rt: HostRuntime) -> Result<(), Fail> {
    let alloc = rt.alloc();
    let election = election_of(alloc, VOTES)?;
    let fixed = Box::new(alloc, FixedCounter::new())?;
    expect_counted(
        &rt,
        fixed,
        &Leaf::Elect,
        &election,
        &[Elected, Elected, Elected],
    );
    let order = FixedOrder::of(Vec::from_slice(alloc, &[3])?)?;
    let pass = Leaf::PassFirst { k: 2, order };
    let orders = Box::new(alloc, OrderCounter::new())?;
    expect_counted(
        &rt,
        orders,
        &pass,
        &election,
        &[Deferred, Rejected, Deferred],
    );
    let plurality = Box::new(alloc, PluralityCounter::new())?;
    expect_counted(
        &rt,
        plurality,
        &Leaf::Plurality,
        &election,
        &[Elected, Rejected, Rejected],
    );
    let copeland = EliminatorCounter::new(KeptScore::new(Score::Copeland));
    let eliminators = Box::new(alloc, copeland)?;
    let min = Leaf::Min(Score::Copeland);
    expect_counted(
        &rt,
        eliminators,
        &min,
        &election,
        &[Rejected, Deferred, Deferred],
    );
    Ok(())
}
