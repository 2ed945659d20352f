// Words of files and numbers.
use crate::told::{Row, expect_rows};
use std::alloc::AllocError;

const FILES: &[Row] = &[
    (&[], ""),
    (&[""], ""),
    (&["count"], ""),
    (&["count", "r.vir", "p.soc"], "count r.vir p.soc"),
    (&["count", "", "count"], "count  count"),
    (&["count", "r.vir", "p.soc", "more"], ""),
    (&["Count", "r.vir", "p.soc"], ""),
    (&["report", "r.vir", "p.soc"], "report r.vir p.soc"),
    (&["report", "r.vir"], ""),
    (&["listing", "r.vir"], "listing r.vir"),
    (&["listing", "r.vir", "p.soc"], ""),
    (&["check", "c.cert"], "check c.cert"),
    (&["check"], ""),
    (&["check", "c.cert", "more"], ""),
    (&["--help", "check"], ""),
    (&["simplify", "r.vir"], "simplify r.vir"),
    (&["simplify"], ""),
    (&["simplify", "r.vir", "more"], ""),
    (&["batch", "r.vir", "names"], "batch r.vir names"),
    (&["batch", "r.vir"], ""),
    (&["batch", "r.vir", "names", "more"], ""),
    (&["explain", "r.vir", "p.soc"], "explain r.vir p.soc"),
    (&["explain", "r.vir"], ""),
    (&["pairs", "p.soc"], "pairs p.soc"),
    (&["pairs", "r.vir", "p.soc"], ""),
    (&["count", "r.vir", "p.soc", "q.soc", "more"], ""),
    (&["count", "r.vir", "p.soc", "q.soc", "s.soc", "1"], ""),
];

#[test]
fn names_of_files_are_any_words(rt: HostRuntime) -> Result<(), AllocError> {
    expect_rows(&rt, rt.alloc(), FILES)
}

const DRILLS: &[Row] = &[
    (&["drill", "0", "1", "3"], "drill 0 1 3"),
    (&["drill", "007", "0100000", "128"], "drill 7 100000 128"),
    (
        &["drill", "18446744073709551615", "1", "1"],
        "drill 18446744073709551615 1 1",
    ),
    (&["drill", "18446744073709551616", "1", "1"], ""),
    (&["drill", "0", "0", "3"], ""),
    (&["drill", "0", "100001", "3"], ""),
    (&["drill", "0", "1", "129"], ""),
    (&["drill", "+1", "1", "3"], ""),
];

#[test]
fn drill_is_of_three_numbers(rt: HostRuntime) -> Result<(), AllocError> {
    expect_rows(&rt, rt.alloc(), DRILLS)
}

const WEIGHTS: &[Row] = &[
    (
        &["position", "2,1,0", "min", "p.soc"],
        "position min p.soc 2 1 0",
    ),
    (&["position", "1", "max", "p.soc"], "position max p.soc 1"),
    (&["position", "0", "upto", "p.soc"], "position upto p.soc 0"),
    (
        &["position", "1000000,1000000", "below", "p.soc"],
        "position below p.soc 1000000 1000000",
    ),
    (&["position", "1000001", "max", "p.soc"], ""),
    (&["position", "0,1", "max", "p.soc"], ""),
    (&["position", "01", "max", "p.soc"], ""),
    (&["position", "00", "max", "p.soc"], ""),
    (&["position", "1,", "max", "p.soc"], ""),
    (&["position", "", "max", "p.soc"], ""),
    (&["position", "+1", "max", "p.soc"], ""),
    (&["position", "1", "borda", "p.soc"], ""),
    (&["position", "1", "Max", "p.soc"], ""),
    (&["position", "1", "max"], ""),
];

#[test]
fn position_is_of_weights_and_an_eliminator(rt: HostRuntime) -> Result<(), AllocError> {
    expect_rows(&rt, rt.alloc(), WEIGHTS)
}
