// Words of suspected counterexamples.
use crate::told::{Row, expect_rows};
use std::alloc::AllocError;

const ONE: &[Row] = &[
    (&["refute", "r.vir", "ne", "p.soc"], "refute r.vir ne p.soc"),
    (&["refute", "r.vir", "ea", "p.soc"], "refute r.vir ea p.soc"),
    (&["refute", "r.vir", "el", "p.soc"], "refute r.vir el p.soc"),
    (
        &["refute", "r.vir", "defers(2)", "p.soc"],
        "refute r.vir defers(2) p.soc",
    ),
    (
        &["refute", "r.vir", "rejects(1)", "p.soc"],
        "refute r.vir rejects(1) p.soc",
    ),
    (
        &["refute", "r.vir", "elim(1000000)", "p.soc"],
        "refute r.vir elim(1000000) p.soc",
    ),
    (&["refute", "r.vir", "nb", "p.soc"], "refute r.vir nb p.soc"),
    (
        &["refute", "r.vir", "decr", "p.soc"],
        "refute r.vir decr p.soc",
    ),
    (&["refute", "r.vir", "dli", "p.soc"], ""),
    (&["refute", "r.vir", "imono", "p.soc"], ""),
    (&["refute", "r.vir", "dimono", "p.soc"], ""),
    (&["refute", "r.vir", "dmono", "p.soc"], ""),
    (&["refute", "r.vir", "mono", "p.soc"], ""),
    (&["refute", "r.vir", "cc", "p.soc"], "refute r.vir cc p.soc"),
    (
        &["refute", "r.vir", "dcc", "p.soc"],
        "refute r.vir dcc p.soc",
    ),
    (
        &["refute", "r.vir", "cprog", "p.soc"],
        "refute r.vir cprog p.soc",
    ),
    (
        &["refute", "r.vir", "ccomp", "p.soc"],
        "refute r.vir ccomp p.soc",
    ),
    (&["refute", "r.vir", "neut", "p.soc"], ""),
    (&["refute", "r.vir", "defers(0)", "p.soc"], ""),
    (&["refute", "r.vir", "defers(01)", "p.soc"], ""),
    (&["refute", "r.vir", "cc ", "p.soc"], ""),
    (&["refute", "r.vir", "", "p.soc"], ""),
    (&["refute", "r.vir", "cc,el", "p.soc"], ""),
    (&["refute", "r.vir", "cc"], ""),
];

#[test]
fn one_profile_is_for_a_property_of_one_election(rt: HostRuntime) -> Result<(), AllocError> {
    expect_rows(&rt, rt.alloc(), ONE)
}

const PAIRS: &[Row] = &[
    (&["refute", "r.vir", "ne", "p.soc", "q.soc", "3"], ""),
    (&["refute", "r.vir", "ea", "p.soc", "q.soc", "3"], ""),
    (&["refute", "r.vir", "el", "p.soc", "q.soc", "3"], ""),
    (&["refute", "r.vir", "defers(2)", "p.soc", "q.soc", "3"], ""),
    (
        &["refute", "r.vir", "rejects(1)", "p.soc", "q.soc", "3"],
        "",
    ),
    (
        &["refute", "r.vir", "elim(1000000)", "p.soc", "q.soc", "3"],
        "",
    ),
    (&["refute", "r.vir", "nb", "p.soc", "q.soc", "3"], ""),
    (&["refute", "r.vir", "decr", "p.soc", "q.soc", "3"], ""),
    (
        &["refute", "r.vir", "dli", "p.soc", "q.soc", "3"],
        "refute r.vir dli p.soc q.soc lifts 3",
    ),
    (
        &["refute", "r.vir", "imono", "p.soc", "q.soc", "3"],
        "refute r.vir imono p.soc q.soc lifts 3",
    ),
    (
        &["refute", "r.vir", "dimono", "p.soc", "q.soc", "3"],
        "refute r.vir dimono p.soc q.soc lifts 3",
    ),
    (
        &["refute", "r.vir", "dmono", "p.soc", "q.soc", "3"],
        "refute r.vir dmono p.soc q.soc lifts 3",
    ),
    (
        &["refute", "r.vir", "mono", "p.soc", "q.soc", "3"],
        "refute r.vir mono p.soc q.soc lifts 3",
    ),
    (&["refute", "r.vir", "cc", "p.soc", "q.soc", "3"], ""),
    (&["refute", "r.vir", "dcc", "p.soc", "q.soc", "3"], ""),
    (&["refute", "r.vir", "cprog", "p.soc", "q.soc", "3"], ""),
    (&["refute", "r.vir", "ccomp", "p.soc", "q.soc", "3"], ""),
    (&["refute", "r.vir", "neut", "p.soc", "q.soc", "3"], ""),
];

#[test]
fn two_profiles_are_for_a_property_on_lifts(rt: HostRuntime) -> Result<(), AllocError> {
    expect_rows(&rt, rt.alloc(), PAIRS)
}

const LIFTED: &[Row] = &[
    (
        &["refute", "r.vir", "mono", "p.soc", "p.soc", "1"],
        "refute r.vir mono p.soc p.soc lifts 1",
    ),
    (
        &["refute", "r.vir", "mono", "p.soc", "p.soc", "1024"],
        "refute r.vir mono p.soc p.soc lifts 1024",
    ),
    (
        &["refute", "r.vir", "mono", "p.soc", "p.soc", "0007"],
        "refute r.vir mono p.soc p.soc lifts 7",
    ),
    (
        &["refute", "r.vir", "mono", "p.soc", "p.soc", "01024"],
        "refute r.vir mono p.soc p.soc lifts 1024",
    ),
    (&["refute", "r.vir", "mono", "p.soc", "p.soc", "0"], ""),
    (&["refute", "r.vir", "mono", "p.soc", "p.soc", "1025"], ""),
    (&["refute", "r.vir", "mono", "p.soc", "p.soc", "65537"], ""),
    (
        &[
            "refute",
            "r.vir",
            "mono",
            "p.soc",
            "p.soc",
            "18446744073709551617",
        ],
        "",
    ),
    (&["refute", "r.vir", "mono", "p.soc", "p.soc", "+1"], ""),
    (&["refute", "r.vir", "mono", "p.soc", "p.soc", "-1"], ""),
    (&["refute", "r.vir", "mono", "p.soc", "p.soc", "1 "], ""),
    (&["refute", "r.vir", "mono", "p.soc", "p.soc", "x"], ""),
    (&["refute", "r.vir", "mono", "p.soc", "p.soc", ""], ""),
    (&["refute", "r.vir", "mono", "p.soc", "q.soc"], ""),
    (
        &["refute", "r.vir", "mono", "p.soc", "q.soc", "1", "more"],
        "",
    ),
    (&["Refute", "r.vir", "mono", "p.soc", "q.soc", "1"], ""),
];

#[test]
fn what_is_lifted_is_one_of_1_to_1024(rt: HostRuntime) -> Result<(), AllocError> {
    expect_rows(&rt, rt.alloc(), LIFTED)
}
