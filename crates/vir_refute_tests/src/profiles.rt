// Properties of one election, on small profiles.
use crate::verdicts::expect_verdict;
use std::test::Fail;
use vir_refute::Case;
use vir_refute::CaseVerdict::{self, NotViolated, Violated};
use vir_refute::Reason::{ClauseHolds, PremiseNotMet};
use vir_samples::{CYCLE, DIVIDED, profile_of};
use vir_term::Prop::{self, Cc, Ccomp, Cprog, Dcc, Decr, Defers, Ea, El, Elim, Nb, Ne, Rejects};

// A rule, a property, and what is said.
type Row = (&'static str, Prop, CaseVerdict);

const HOLDS: CaseVerdict = NotViolated(ClauseHolds);

const NOT_ASKED: CaseVerdict = NotViolated(PremiseNotMet);

const ELECT: &str = "r = elect;";

const DEFER: &str = "r = defer;";

// Elects 1, and rejects 2 and 3.
const PLURALITY: &str = "r = plurality;";

// Defers 1, and rejects 2 and 3.
const LEADER: &str = "r = rev(plurality);";

// Rejects all.
const NOBODY: &str = "r = rev(defer);";

// Elects 2, and rejects 1 and 3.
const COPELAND: &str = "r = seq(max(copeland),elect);";

// Defers 2, and rejects 1 and 3.
const BEST: &str = "r = max(copeland);";

// Rejects 3, who has fewest first places, and defers 1 and 2.
const LAST_OUT: &str = "r = min(plurality);";

const ON_DIVIDED: &[Row] = &[
    (DEFER, Ne, HOLDS),
    (PLURALITY, Ne, Violated),
    (ELECT, Ea, HOLDS),
    (PLURALITY, Ea, Violated),
    (PLURALITY, El, HOLDS),
    (DEFER, El, Violated),
    (DEFER, Defers(3), HOLDS),
    (DEFER, Defers(2), Violated),
    (ELECT, Defers(4), NOT_ASKED),
    (PLURALITY, Rejects(2), HOLDS),
    (PLURALITY, Rejects(3), Violated),
    (PLURALITY, Rejects(4), NOT_ASKED),
    (LAST_OUT, Elim(1), HOLDS),
    (PLURALITY, Elim(1), Violated),
    (PLURALITY, Elim(3), NOT_ASKED),
    (PLURALITY, Nb, HOLDS),
    (NOBODY, Nb, Violated),
    (LAST_OUT, Decr, HOLDS),
    (DEFER, Decr, Violated),
    (PLURALITY, Cc, Violated),
    (COPELAND, Cc, HOLDS),
    (BEST, Cc, Violated),
    (BEST, Dcc, HOLDS),
    (LEADER, Dcc, Violated),
    (LAST_OUT, Cprog, HOLDS),
    (DEFER, Cprog, Violated),
    (COPELAND, Ccomp, HOLDS),
    (LAST_OUT, Ccomp, HOLDS),
    (PLURALITY, Ccomp, Violated),
    (LEADER, Ccomp, Violated),
    (ELECT, Ccomp, Violated),
];

#[test]
fn a_divided_profile(rt: HostRuntime) -> Result<(), Fail> {
    let profile = profile_of(rt.alloc(), DIVIDED)?;
    let case = Case::One { profile: &profile };
    for (text, prop, verdict) in ON_DIVIDED {
        expect_verdict(&rt, rt.alloc(), text, *prop, &case, *verdict)?;
    }
    Ok(())
}

// All are elected; there is no Condorcet winner of whom anything could be asked.
const ON_CYCLE: &[Row] = &[
    (PLURALITY, Ea, HOLDS),
    (PLURALITY, Cc, NOT_ASKED),
    (PLURALITY, Dcc, NOT_ASKED),
    (PLURALITY, Cprog, NOT_ASKED),
    (PLURALITY, Ccomp, NOT_ASKED),
];

#[test]
fn a_cycle(rt: HostRuntime) -> Result<(), Fail> {
    let profile = profile_of(rt.alloc(), CYCLE)?;
    let case = Case::One { profile: &profile };
    for (text, prop, verdict) in ON_CYCLE {
        expect_verdict(&rt, rt.alloc(), text, *prop, &case, *verdict)?;
    }
    Ok(())
}
