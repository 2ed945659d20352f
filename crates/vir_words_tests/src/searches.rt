// Words of properties and modules.
use crate::told::{Row, expect_rows};
use std::alloc::AllocError;

const PROPS: &[Row] = &[
    (&["prove", "r.vir", "mono"], "prove r.vir mono"),
    (&["prove", "r.vir", "neut"], "prove r.vir neut"),
    (&["prove", "r.vir", "defers(1)"], "prove r.vir defers(1)"),
    (
        &["prove", "r.vir", "elim(1000000)"],
        "prove r.vir elim(1000000)",
    ),
    (
        &["prove", "r.vir", "rejects(30)"],
        "prove r.vir rejects(30)",
    ),
    (&["prove", "r.vir", "defers(0)"], ""),
    (&["prove", "r.vir", "defers(1000001)"], ""),
    (&["prove", "r.vir", "defers(01)"], ""),
    (&["prove", "r.vir", "defers()"], ""),
    (&["prove", "r.vir", "defers"], ""),
    (&["prove", "r.vir", "defers(1"], ""),
    (&["prove", "r.vir", "1defers()"], ""),
    (&["prove", "r.vir", "mono(1)"], ""),
    (&["prove", "r.vir", "mono "], ""),
    (&["prove", "r.vir", "mono,el"], ""),
    (&["prove", "r.vir", ""], ""),
    (&["prove", "r.vir"], ""),
];

#[test]
fn prove_is_of_a_property(rt: HostRuntime) -> Result<(), AllocError> {
    expect_rows(&rt, rt.alloc(), PROPS)
}

const SIZES: &[Row] = &[
    (&["synth", "1", "el", "elect"], "synth 1 el of elect"),
    (&["synth", "15", "el", "elect"], "synth 15 el of elect"),
    (&["synth", "03", "el", "elect"], "synth 3 el of elect"),
    (&["synth", "0", "el", "elect"], ""),
    (&["synth", "16", "el", "elect"], ""),
    (&["synth", "16", "el"], ""),
    (&["synth", "", "el", "elect"], ""),
    (
        &["synth", "3", "el,mono,defers(2),el", "elect"],
        "synth 3 el mono defers(2) el of elect",
    ),
    (&["synth", "3", "", "elect"], ""),
    (&["synth", "3", "el,", "elect"], ""),
    (&["synth", "3", ",el", "elect"], ""),
    (&["synth", "3", "el,,el", "elect"], ""),
    (&["synth", "3", "el;mono", "elect"], ""),
    (&["synth", "3", "el mono", "elect"], ""),
];

#[test]
fn synth_is_of_a_size_and_properties(rt: HostRuntime) -> Result<(), AllocError> {
    expect_rows(&rt, rt.alloc(), SIZES)
}

const MODULES: &[Row] = &[
    (
        &["synth", "2", "el", "pass(2,[3,1]);max(borda);elect;elect"],
        "synth 2 el of pass(2,[3,1]) max(borda) elect elect",
    ),
    (
        &["synth", "2", "el", "drop(1000000,[1024])"],
        "synth 2 el of drop(1000000,[1024])",
    ),
    (&["synth", "2", "el", "drop(1000001)"], ""),
    (&["synth", "2", "el", "drop(1,[1025])"], ""),
    (&["synth", "2", "el", "drop(1,[2,2])"], ""),
    (&["synth", "2", "el", "drop(1,[])"], ""),
    (&["synth", "2", "el", "pass(01)"], ""),
    (&["synth", "2", "el", "pass(0)"], ""),
    (&["synth", "2", "el", "pass(2,[3, 1])"], ""),
    (&["synth", "2", "el", "elect "], ""),
    (&["synth", "2", "el", "elect#"], ""),
    (&["synth", "2", "el", "elect;"], ""),
    (&["synth", "2", "el", "elect,defer"], ""),
    (&["synth", "2", "el", "seq(elect,elect)"], ""),
    (&["synth", "2", "el", "loop(1,elect)"], ""),
    (&["synth", "2", "el", "r"], ""),
    (&["synth", "2", "el", "elect;r2=elect"], ""),
    (&["synth", "2", "el", ""], ""),
    (&["synth", "2"], ""),
    (&["synth", "2", "el", "elect", "more"], ""),
];

#[test]
fn synth_is_of_modules(rt: HostRuntime) -> Result<(), AllocError> {
    expect_rows(&rt, rt.alloc(), MODULES)
}

// Where no modules are named there are 27.
const DEFAULT: &[Row] = &[(
    &["synth", "3", "cc,mono,el"],
    "synth 3 cc mono el of elect defer pass(1) pass(2) drop(1) drop(2) plurality \
        max(plurality) max(borda) max(copeland) max(minimax) max(condorcet) \
        min(plurality) min(borda) min(copeland) min(minimax) min(condorcet) \
        below(plurality) below(borda) below(copeland) below(minimax) below(condorcet) \
        upto(plurality) upto(borda) upto(copeland) upto(minimax) upto(condorcet)",
)];

#[test]
fn modules_are_taken_where_none_are_named(rt: HostRuntime) -> Result<(), AllocError> {
    expect_rows(&rt, rt.alloc(), DEFAULT)
}
