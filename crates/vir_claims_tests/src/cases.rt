// What is answered of cases against rules.
use crate::expected::Expected::{self, Denial, Text};
use crate::expected::is_answered;
use std::alloc::Global;
use std::process::Abort;
use std::test::Fail;
use vir_claims::refute;
use vir_course::Answer;
use vir_refute::{Case, is_about};
use vir_rules::Prop;
use vir_samples::{AFTER, BEFORE, CYCLE, DIVIDED, Votes, profile_of, term_of};

// What `refute` answers.
fn refuted(alloc: Global, rule: &str, prop: Prop, case: &Case) -> Option<Answer> {
    let rule = term_of(alloc, rule).ok()?;
    if !is_about(prop, case) {
        return None;
    }
    refute(alloc, &rule, prop, case).ok()
}

// Rules, and what is answered of a profile as a case against being Condorcet consistent.
const ON_WINNERS: &[(&str, Votes<'static>, Expected)] = &[
    ("plurality", DIVIDED, Text("violated\n")),
    (
        "seq(max(copeland),elect)",
        DIVIDED,
        Denial("not violated: ClauseHolds\n"),
    ),
    ("plurality", CYCLE, Denial("not violated: PremiseNotMet\n")),
];

#[test]
fn one_profile_against_a_rule(rt: HostRuntime) -> Result<(), Fail> {
    for (rule, votes, expected) in ON_WINNERS {
        let profile = profile_of(rt.alloc(), votes)?;
        let case = Case::One { profile: &profile };
        let answer = refuted(rt.alloc(), rule, Prop::Cc, &case);
        assert!(rt; is_answered(&answer, *expected), "{rule}");
    }
    Ok(())
}

// Elects 1 before, and 3 after.
const RUNOFF: &str = "seq(loop(1,min(plurality)),elect)";

// Second profiles, lifted alternatives, and what is answered of them, with the first profile, as cases against being
// monotone.
const ON_LIFTS: &[(Votes<'static>, u16, Expected)] = &[
    (AFTER, 1, Text("violated\n")),
    (BEFORE, 1, Denial("not violated: ClauseHolds\n")),
    (AFTER, 4, Denial("not violated: NotALift\n")),
];

#[test]
fn two_profiles_against_a_rule(rt: HostRuntime) -> Result<(), Fail> {
    let first = profile_of(rt.alloc(), BEFORE)?;
    for (votes, lifted, expected) in ON_LIFTS {
        let second = profile_of(rt.alloc(), votes)?;
        let case = Case::Pair {
            first: &first,
            second: &second,
            lifted: *lifted,
        };
        let answer = refuted(rt.alloc(), RUNOFF, Prop::Mono, &case);
        assert!(rt; is_answered(&answer, *expected), "{lifted}");
    }
    Ok(())
}
