// Reasons by name, the kinds of properties, and the law behind the verdicts.
use vir_refute::{Reason, is_on_lifts, properties_hold_unless_violated};
use vir_term::Prop;

#[test]
fn reasons_have_names(rt: HostRuntime) {
    assert!(rt; Reason::NotALift.name() == "NotALift");
    assert!(rt; Reason::PremiseNotMet.name() == "PremiseNotMet");
    assert!(rt; Reason::ClauseHolds.name() == "ClauseHolds");
}

#[test]
fn five_properties_are_on_lifts(rt: HostRuntime) {
    let mut count = 0u8;
    for prop in Prop::all() {
        if is_on_lifts(*prop) && count < u8::MAX {
            count += 1;
        }
    }
    assert!(rt; count == 5);
}

#[test]
fn the_law_can_be_called() {
    properties_hold_unless_violated();
}
