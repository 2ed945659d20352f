// What is handed in as a suspected counterexample.
use vir_profile::Profile;

/// A case in which a rule may lack a property.
#[derive(Clone, Copy)]
pub enum Case<'a> {
    /// One profile, for a property that speaks of one.
    One {
        profile: &'a Profile,
    },
    /// Two profiles, of which the second is said to lift an alternative against the first.
    Pair {
        first: &'a Profile,
        second: &'a Profile,
        lifted: u16,
    },
}
