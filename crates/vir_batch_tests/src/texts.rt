// Texts of manifests, and the runs that are made for them.
use crate::calls::{COPELAND, full_shelf, is_text, outcome_of};
use std::alloc::AllocError;

// A manifest, its text, and how many of its profiles are accepted.
const TEXTS: &[(&[u8], &[u8], u64)] = &[
    (
        b"F\nG\nF\n",
        b"F voters 9 elected: 2 rejected: 1 3 deferred:\n\
        G refused Short at line 2\n\
        F voters 9 elected: 2 rejected: 1 3 deferred:\n\
        profiles 3 refused 1\n",
        2,
    ),
    (b"", b"profiles 0 refused 0\n", 0),
    (
        b"G\r\nG",
        b"G refused Short at line 2\nG refused Short at line 2\nprofiles 2 refused 2\n",
        0,
    ),
    (
        b"F\n",
        b"F voters 9 elected: 2 rejected: 1 3 deferred:\nprofiles 1 refused 0\n",
        1,
    ),
];

#[test]
fn each_profile_has_its_line(rt: HostRuntime) -> Result<(), AllocError> {
    for (manifest, text, accepted) in TEXTS {
        let mut shelf = full_shelf(rt.alloc())?;
        let outcome = outcome_of(&rt, rt.alloc(), &mut shelf, COPELAND, manifest)?;
        assert!(rt; is_text(&outcome.answer, text));
        assert!(rt; outcome.runs == *accepted);
        assert!(rt; outcome.copeland == Some(*accepted));
        assert!(rt; outcome.fixed == Some(*accepted));
    }
    Ok(())
}

// What a profile comes to is the same, whatever stands before it.
#[test]
fn many_profiles_are_counted(rt: HostRuntime) -> Result<(), AllocError> {
    let alloc = rt.alloc();
    let mut manifest = Vec::new(alloc);
    let mut text = Vec::new(alloc);
    for _ in 0..1000 {
        manifest.extend_from_slice(b"F\nG\n")?;
        text.extend_from_slice(b"F voters 9 elected: 2 rejected: 1 3 deferred:\n")?;
        text.extend_from_slice(b"G refused Short at line 2\n")?;
    }
    text.extend_from_slice(b"profiles 2000 refused 1000\n")?;
    let mut shelf = full_shelf(alloc)?;
    let outcome = outcome_of(&rt, alloc, &mut shelf, COPELAND, &manifest)?;
    assert!(rt; is_text(&outcome.answer, &text));
    assert!(rt; outcome.runs == 1000);
    Ok(())
}
