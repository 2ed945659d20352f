// A rule and a manifest in files.
use crate::calls::{COPELAND, answer_of_files, full_shelf, is_text, is_unread};
use std::alloc::{AllocError, Global};
use vir_course::{Answer, Stop};
use vir_outside::MemoryShelf;
use vir_read::TextKind::{BadByte, EmptyBook};
use vir_read::{TextFault, TextKind};

// The two profiles, and a rule and a manifest.
fn shelf_of(alloc: Global, rule: &[u8], manifest: &[u8]) -> Result<MemoryShelf, AllocError> {
    let mut shelf = full_shelf(alloc)?;
    shelf.put("rule.vir", rule)?;
    shelf.put("names.txt", manifest)?;
    Ok(shelf)
}

// Whether a text was refused for a fault of this kind, at this place.
fn is_refused(answer: &Result<Answer, Stop>, kind: TextKind, at: usize) -> bool {
    match answer {
        Err(Stop::TextRefused(fault)) => *fault == TextFault { kind, at },
        _ => false,
    }
}

#[test]
fn the_profiles_of_a_manifest_are_counted(rt: HostRuntime) -> Result<(), AllocError> {
    let mut shelf = shelf_of(rt.alloc(), COPELAND, b"G\nF\n")?;
    let answer = answer_of_files(rt.alloc(), &mut shelf)?;
    let text = b"G refused Short at line 2\n\
        F voters 9 elected: 2 rejected: 1 3 deferred:\n\
        profiles 2 refused 1\n";
    assert!(rt; is_text(&answer, text));
    Ok(())
}

#[test]
fn the_rule_is_judged_first(rt: HostRuntime) -> Result<(), AllocError> {
    let mut shelf = shelf_of(rt.alloc(), b"", b"\xFF")?;
    let answer = answer_of_files(rt.alloc(), &mut shelf)?;
    assert!(rt; is_refused(&answer, EmptyBook, 0));
    Ok(())
}

#[test]
fn a_manifest_is_judged_before_a_profile_is_read(rt: HostRuntime) -> Result<(), AllocError> {
    let mut shelf = shelf_of(rt.alloc(), COPELAND, b"H\n\xFF\n")?;
    let answer = answer_of_files(rt.alloc(), &mut shelf)?;
    assert!(rt; is_refused(&answer, BadByte, 2));
    Ok(())
}

#[test]
fn a_missing_manifest_stops_all(rt: HostRuntime) -> Result<(), AllocError> {
    let mut shelf = full_shelf(rt.alloc())?;
    shelf.put("rule.vir", COPELAND)?;
    let answer = answer_of_files(rt.alloc(), &mut shelf)?;
    assert!(rt; is_unread(&answer));
    Ok(())
}
