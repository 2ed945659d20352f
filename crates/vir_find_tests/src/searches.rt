// Searches for counterexamples, with few alternatives and voters.
use crate::wanted::Wanted::{self, Exchanged, Nothing, One, Pair};
use crate::wanted::is_wanted;
use std::test::Fail;
use vir_find::find;
use vir_samples::term_of;
use vir_term::Prop::{self, Cc, Decr, Dimono, Dli, Mono, Neut};

// A rule, a property, the most alternatives and voters, and what is found.
type Row = (&'static str, Prop, u8, u8, Wanted);

const INSTANT_RUNOFF: &str = "seq(loop(1,min(plurality)),elect)";

const ROWS: &[Row] = &[
    ("plurality", Cc, 2, 4, Nothing),
    (
        "plurality",
        Cc,
        3,
        4,
        One(3, &[(1, &[1, 2, 3]), (1, &[2, 1, 3]), (1, &[3, 1, 2])]),
    ),
    ("defer", Decr, 2, 1, One(2, &[])),
    ("elect", Dimono, 1, 0, Pair(1, &[], &[], 1)),
    (
        "min(plurality)",
        Dli,
        3,
        3,
        Pair(
            2,
            &[(1, &[1, 2]), (1, &[2, 1])],
            &[(1, &[2, 1]), (1, &[2, 1])],
            2,
        ),
    ),
    (INSTANT_RUNOFF, Mono, 3, 4, Nothing),
    (
        INSTANT_RUNOFF,
        Mono,
        3,
        9,
        Pair(
            3,
            &[
                (3, &[1, 2, 3]),
                (3, &[2, 1, 3]),
                (2, &[3, 1, 2]),
                (1, &[3, 2, 1]),
            ],
            &[
                (3, &[1, 2, 3]),
                (3, &[2, 1, 3]),
                (2, &[3, 1, 2]),
                (1, &[2, 3, 1]),
            ],
            2,
        ),
    ),
    ("pass(2)", Neut, 3, 1, Exchanged(3, &[], 2)),
    ("max(plurality)", Neut, 3, 2, Nothing),
];

#[test]
fn the_smallest_counterexamples(rt: HostRuntime) -> Result<(), Fail> {
    for (text, prop, most, voters, wanted) in ROWS {
        let rule = term_of(rt.alloc(), text)?;
        let found = find(
            rt.alloc(),
            &rule,
            *prop,
            u16::from(*most),
            u64::from(*voters),
        )?;
        assert!(rt; is_wanted(&found, *wanted), "{prop:?} of {text}");
    }
    Ok(())
}
