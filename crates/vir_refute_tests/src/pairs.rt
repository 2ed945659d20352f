// Properties of lifts, on pairs of small profiles.
use crate::verdicts::expect_verdict;
use std::test::Fail;
use vir_refute::Case;
use vir_refute::CaseVerdict::{self, NotViolated, Violated};
use vir_refute::Reason::{ClauseHolds, NotALift, PremiseNotMet};
use vir_samples::{AFTER, BEFORE, Votes, profile_of};
use vir_term::Prop::{self, Dimono, Dli, Dmono, Imono, Mono};

// The lift of 1 with other weights, with a line less, and with 2 and 3 exchanged in a line.
const OTHER_WEIGHT: Votes<'static> = &[
    (6, [1, 2, 3]),
    (5, [3, 1, 2]),
    (4, [2, 3, 1]),
    (3, [1, 2, 3]),
];

const A_LINE_LESS: Votes<'static> = &[(6, [1, 2, 3]), (5, [3, 1, 2]), (4, [2, 3, 1])];

const EXCHANGED: Votes<'static> = &[
    (6, [1, 3, 2]),
    (5, [3, 1, 2]),
    (4, [2, 3, 1]),
    (2, [1, 2, 3]),
];

// A rule, a property, both profiles, the lifted alternative, and what is said.
type Row = (
    &'static str,
    Prop,
    Votes<'static>,
    Votes<'static>,
    u16,
    CaseVerdict,
);

const HOLDS: CaseVerdict = NotViolated(ClauseHolds);

const NOT_ASKED: CaseVerdict = NotViolated(PremiseNotMet);

const NO_LIFT: CaseVerdict = NotViolated(NotALift);

// Elects 1 before, and 3 after.
const RUNOFF: &str = "r = seq(loop(1,min(plurality)),elect);";

// Defers 1 before, and 3 after.
const RUNOFF_LEFT: &str = "r = loop(1,min(plurality));";

// Defers 1 and 2, and rejects 3, before; defers 1 alone after.
const LEADERS: &str = "r = max(plurality);";

// Elects 1 and 2 before, and 1 alone after.
const PLURALITY: &str = "r = plurality;";

const ELECT: &str = "r = elect;";

const DEFER: &str = "r = defer;";

// Elects nobody: defers 1 and 2 before, and 1 and 3 after.
const LAST_OUT: &str = "r = min(plurality);";

const ROWS: &[Row] = &[
    (RUNOFF, Mono, BEFORE, AFTER, 1, Violated),
    (RUNOFF, Mono, BEFORE, BEFORE, 1, HOLDS),
    (RUNOFF, Mono, BEFORE, AFTER, 4, NO_LIFT),
    (RUNOFF, Mono, BEFORE, AFTER, 0, NO_LIFT),
    (RUNOFF, Mono, BEFORE, AFTER, 2, NO_LIFT),
    (RUNOFF, Mono, AFTER, BEFORE, 1, NO_LIFT),
    (RUNOFF, Mono, AFTER, BEFORE, 2, NOT_ASKED),
    (RUNOFF, Mono, BEFORE, OTHER_WEIGHT, 1, NO_LIFT),
    (RUNOFF, Mono, BEFORE, A_LINE_LESS, 1, NO_LIFT),
    (RUNOFF, Mono, BEFORE, EXCHANGED, 1, NO_LIFT),
    (RUNOFF_LEFT, Mono, BEFORE, AFTER, 1, NOT_ASKED),
    (RUNOFF_LEFT, Dmono, BEFORE, AFTER, 1, Violated),
    (LAST_OUT, Dmono, BEFORE, AFTER, 1, HOLDS),
    (DEFER, Dli, BEFORE, AFTER, 1, HOLDS),
    (LAST_OUT, Dli, BEFORE, AFTER, 1, Violated),
    (ELECT, Dli, BEFORE, AFTER, 1, NOT_ASKED),
    (PLURALITY, Imono, BEFORE, AFTER, 1, HOLDS),
    (ELECT, Imono, BEFORE, AFTER, 1, HOLDS),
    (RUNOFF, Imono, BEFORE, AFTER, 1, Violated),
    (LEADERS, Dimono, BEFORE, AFTER, 1, HOLDS),
    (LAST_OUT, Dimono, BEFORE, AFTER, 1, Violated),
    (ELECT, Dimono, BEFORE, BEFORE, 1, Violated),
    (LEADERS, Dimono, BEFORE, BEFORE, 3, NOT_ASKED),
];

#[test]
fn pairs_of_profiles(rt: HostRuntime) -> Result<(), Fail> {
    for (text, prop, first, second, lifted, verdict) in ROWS {
        let first = profile_of(rt.alloc(), first)?;
        let second = profile_of(rt.alloc(), second)?;
        let case = Case::Pair {
            first: &first,
            second: &second,
            lifted: *lifted,
        };
        expect_verdict(&rt, rt.alloc(), text, *prop, &case, *verdict)?;
    }
    Ok(())
}
