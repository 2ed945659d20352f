// The words of `refute`, read. A property on lifts takes two profiles, any other but neutrality takes one.
ghost use Rattle.std.specs.Prelude.{◌≡◌, option_map};
ghost use Rattle.vir_words.specs.Command.{command_seen, is_on_one, refute_of, refute_pair_of};
ghost use Rattle.vir_words.specs.WordNumbers.{number_within};
ghost use Rattle.vir_words.specs.WordProps.{prop_of};

use crate::command::{Command, RuleProfileWork};
use crate::word_number::word_number;
use crate::word_prop::word_prop;
use vir_refute::is_on_lifts;
use vir_term::Prop;

// The greatest number of an alternative.
const ALTERNATIVE_LIMIT: u64 = 1_024;

// Whether the property is of one election: neither neutrality nor one on lifts.
fn is_on_one(prop: Prop) -> bool
    ensures { result ≡ is_on_one prop }
{
    match prop {
        Prop::Neut => false,
        _ => !is_on_lifts(prop),
    }
}

/// The command `refute` of the property that the second word is, where that is one of one election.
pub fn read_refute<'a>(rule: &'a str, prop: &str, profile: &'a str) -> Option<Command<'a>>
    ensures { option_map command_seen result ≡ refute_of rule.now (prop_of prop.now) profile.now }
{
    let prop = word_prop(prop)?;
    if is_on_one(prop) {
        Some(Command::OnRuleAndProfile {
            rule,
            profile,
            work: RuleProfileWork::Refute { prop },
        })
    } else {
        None
    }
}

/// The same of two profiles and the alternative that the last word is, where the property is on lifts.
pub fn read_refute_pair<'a>(
    rule: &'a str,
    prop: &str,
    first: &'a str,
    second: &'a str,
    lifted: &str,
) -> Option<Command<'a>>
    ensures { option_map command_seen result ≡ refute_pair_of rule.now (prop_of prop.now) first.now second.now
        (number_within 1 1024 lifted.now) }
{
    let prop = word_prop(prop)?;
    let lifted = word_number(lifted, 1, ALTERNATIVE_LIMIT)?;
    if is_on_lifts(prop) {
        Some(Command::RefutePair {
            rule,
            prop,
            first,
            second,
            lifted: lifted as u16,
        })
    } else {
        None
    }
}
