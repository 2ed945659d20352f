// The lists of terms of small sizes.
use std::process::Abort;
use vir_read::TextError;
use vir_samples::modules_of;
use vir_synth::terms;

// Modules, a size, and the terms of that size in their order.
const LISTS: &[(&[&str], u32, &[&str])] = &[
    (&["elect", "defer"], 0, &[]),
    (
        &["elect", "defer", "elect"],
        1,
        &["elect", "defer", "elect"],
    ),
    (
        &["elect", "defer"],
        2,
        &["rev(elect)", "rev(defer)", "loop(1,elect)", "loop(1,defer)"],
    ),
    (
        &["elect"],
        3,
        &[
            "rev(rev(elect))",
            "rev(loop(1,elect))",
            "loop(1,rev(elect))",
            "loop(1,loop(1,elect))",
            "seq(elect,elect)",
            "par(elect,elect)",
        ],
    ),
];

#[test]
fn the_terms_of_a_size_stand_in_order(rt: HostRuntime) -> Result<(), TextError> {
    let alloc = rt.alloc();
    for (texts, size, expected) in LISTS {
        let leaves = modules_of(alloc, texts)?;
        let found = terms(alloc, &leaves, *size)?;
        assert!(rt; found.len() == expected.len() && found.is_empty() == expected.is_empty());
        for (i, text) in expected.iter().enumerate() {
            let Some(term) = found.at(i) else {
                assert!(rt; false, "{text}");
                return Ok(());
            };
            assert!(rt; term.print(alloc)?.as_slice() == text.as_bytes(), "{text}");
        }
    }
    Ok(())
}

// Places in the list of the terms of size 4 of `elect` alone, and what stands there.
const AT: &[(usize, &str)] = &[
    (0, "rev(rev(rev(elect)))"),
    (5, "rev(par(elect,elect))"),
    (6, "loop(1,rev(rev(elect)))"),
    (12, "seq(elect,rev(elect))"),
    (13, "seq(elect,loop(1,elect))"),
    (14, "seq(rev(elect),elect)"),
    (15, "seq(loop(1,elect),elect)"),
    (16, "par(elect,rev(elect))"),
    (19, "par(loop(1,elect),elect)"),
];

#[test]
fn smaller_first_parts_stand_first(rt: HostRuntime) -> Result<(), TextError> {
    let alloc = rt.alloc();
    let leaves = modules_of(alloc, &["elect"])?;
    let found = terms(alloc, &leaves, 4)?;
    assert!(rt; found.len() == 20);
    for (i, text) in AT {
        let Some(term) = found.at(*i) else {
            assert!(rt; false, "{text}");
            return Ok(());
        };
        assert!(rt; term.print(alloc)?.as_slice() == text.as_bytes(), "{text}");
    }
    Ok(())
}
