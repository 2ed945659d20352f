// What the words of the command line ask for: a form of files, and the work that is done with what they say.
use vir_mean::Elimination;
use vir_positional::Weights;
use vir_term::{Leaf, Prop};

/// What is done with a rule.
#[derive(Clone, Copy)]
pub enum RuleWork {
    /// Prints its counting code.
    Listing,
    /// Proves the property of it.
    Prove { prop: Prop },
    /// Shortens it.
    Simplify,
}

/// What is done with a profile.
#[derive(Drop)]
pub enum ProfileWork {
    /// Eliminates by the positional score of the weights.
    Position { weights: Weights, kind: Elimination },
    /// Tells how many voters put one alternative before another.
    Pairs,
}

/// What is done with a rule and a profile.
#[derive(Clone, Copy)]
pub enum RuleProfileWork {
    /// Counts the profile with the rule.
    Count,
    /// Reports on the rule and the profile.
    Report,
    /// Tells how the rule comes to its result on the profile.
    Explain,
    /// Judges whether the profile shows that the rule lacks the property.
    Refute { prop: Prop },
}

/// What the words ask for. Names of files are borrowed from the words.
#[derive(Drop)]
pub enum Command<'a> {
    /// Searches for a rule of at most this size that has the properties and is composed of the modules.
    Synth {
        size: u32,
        props: Vec<Prop>,
        leaves: Vec<Leaf>,
    },
    /// Counts a generated profile with the rules of `drill`.
    Drill {
        seed: u64,
        lines: u32,
        alternatives: u16,
    },
    /// Works on the rule.
    OnRule {
        rule: &'a str,
        work: RuleWork,
    },
    /// Works on the profile.
    OnProfile {
        profile: &'a str,
        work: ProfileWork,
    },
    /// Works on the rule and the profile.
    OnRuleAndProfile {
        rule: &'a str,
        profile: &'a str,
        work: RuleProfileWork,
    },
    /// Checks the certificate.
    Check {
        certificate: &'a str,
    },
    /// Judges whether the two profiles, the second of which is said to lift an alternative, show that the rule lacks
    /// the property.
    RefutePair {
        rule: &'a str,
        prop: Prop,
        first: &'a str,
        second: &'a str,
        lifted: u16,
    },
    /// Counts the profiles that the manifest names, with the rule.
    Batch {
        rule: &'a str,
        manifest: &'a str,
    },
}
