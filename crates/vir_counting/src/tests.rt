// Generated profiles.
use crate::drill_profile::drill_profile;
use crate::drill_terms::drill_terms;
use std::alloc::AllocError;
use vir_mean::plain_result;
use vir_profile::{AltSet, NARROW};

#[test]
fn a_seed_gives_its_first_ballot(rt: HostRuntime) -> Result<(), AllocError> {
    let profile = drill_profile(rt.alloc(), 0, 1, 3)?;
    let Some(line) = profile.line(0) else {
        panic!(rt; "there is no line");
    };
    assert!(rt; line.weight == 1);
    assert!(rt; line.order.alternatives(&mut [0; NARROW]) == [3, 1, 2].as_slice());
    Ok(())
}

#[test]
fn each_line_has_weight_1(rt: HostRuntime) -> Result<(), AllocError> {
    let profile = drill_profile(rt.alloc(), 7, 20, 6)?;
    assert!(rt; profile.lines() == 20);
    assert!(rt; profile.total() == 20);
    Ok(())
}

// By ballots that are restricted literally each rule elects 5 alone, as `drill 7 50 6` prints.
#[test]
fn its_rules_mean_what_is_printed(rt: HostRuntime) -> Result<(), AllocError> {
    let profile = drill_profile(rt.alloc(), 7, 50, 6)?;
    let domain = AltSet::all(profile.alternatives());
    for rule in &drill_terms(rt.alloc())? {
        let split = plain_result(rt.alloc(), rule, &profile, &domain)?;
        assert!(rt; split.elected.count() == 1 && split.elected.first_after(0) == Some(5));
    }
    Ok(())
}
