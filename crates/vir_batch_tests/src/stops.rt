// Batches that come to no text.
use crate::calls::{COPELAND, full_shelf, is_text, is_unread, outcome_of};
use std::alloc::AllocError;
use vir_course::{Answer, Stop};

const MANIFEST: &[u8] = b"F\nG\nF\n";

const TEXT: &[u8] = b"F voters 9 elected: 2 rejected: 1 3 deferred:\n\
    G refused Short at line 2\n\
    F voters 9 elected: 2 rejected: 1 3 deferred:\n\
    profiles 3 refused 1\n";

// Whether no counter served this module.
fn lacks_counter(answer: &Result<Answer, Stop>, module: &[u8]) -> bool {
    match answer {
        Err(Stop::NoCounter(text)) => text.bytes() == module,
        _ => false,
    }
}

// The profiles before it are counted.
#[test]
fn a_missing_profile_stops_all(rt: HostRuntime) -> Result<(), AllocError> {
    let mut shelf = full_shelf(rt.alloc())?;
    let outcome = outcome_of(&rt, rt.alloc(), &mut shelf, COPELAND, b"F\nH\nF\n")?;
    assert!(rt; is_unread(&outcome.answer));
    assert!(rt; outcome.runs == 1 && outcome.copeland == Some(1));
    Ok(())
}

#[test]
fn each_failing_call_of_the_shelf_stops_all(rt: HostRuntime) -> Result<(), AllocError> {
    let alloc = rt.alloc();
    let mut undisturbed = full_shelf(alloc)?;
    let outcome = outcome_of(&rt, alloc, &mut undisturbed, COPELAND, MANIFEST)?;
    assert!(rt; is_text(&outcome.answer, TEXT));
    let calls = undisturbed.calls();
    assert!(rt; 6 < calls && calls < 20);
    for call in 1..calls + 1 {
        let mut shelf = full_shelf(alloc)?;
        shelf.fail_at(call)?;
        let outcome = outcome_of(&rt, alloc, &mut shelf, COPELAND, MANIFEST)?;
        assert!(rt; is_unread(&outcome.answer));
        assert!(rt; outcome.runs < 2);
    }
    let mut shelf = full_shelf(alloc)?;
    shelf.fail_at(calls + 1)?;
    let outcome = outcome_of(&rt, alloc, &mut shelf, COPELAND, MANIFEST)?;
    assert!(rt; is_text(&outcome.answer, TEXT));
    Ok(())
}

#[test]
fn without_a_counter_no_profile_is_selected(rt: HostRuntime) -> Result<(), AllocError> {
    let mut shelf = full_shelf(rt.alloc())?;
    let outcome = outcome_of(&rt, rt.alloc(), &mut shelf, b"r = max(borda);", MANIFEST)?;
    assert!(rt; lacks_counter(&outcome.answer, b"max(borda)"));
    assert!(rt; shelf.calls() == 0 && outcome.runs == 0);
    Ok(())
}
