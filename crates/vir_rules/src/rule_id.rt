// The rules of the table, by their numbers and by their names.
ghost use Rattle.std.specs.Prelude.{ℕ, ◌≡◌, ◌≢◌, ◌+◌, ◌≤◌, if◌then◌else◌, nat_lt, Some, None, IfSome, MatchOption, ⊤};
ghost use Rattle.vir_rules.specs.Counts.{rule_count};
ghost use Rattle.vir_rules.specs.Premises.{row_of};
ghost use Rattle.vir_rules.specs.Named.{rule_named};

use crate::row::Row;
use crate::table::row_of;
use std::marker::Model;

/// A rule of the table, seen as its number, from 1 on.
#[derive(Clone, Copy)]
pub struct RuleId {
    number: u8,
}

impl Model for RuleId {
    ghost use Rattle.std.specs.Prelude.{ℕ, ◌≤◌};
    ghost use Rattle.vir_rules.specs.Counts.{rule_count};

    ghost Value = { ℕ };

    ghost view = { λ rule. rule.number };

    ghost invariant = { λ rule. (1 ≤ rule.number) × (rule.number ≤ rule_count) };

    ghost inverse = { λ number. record { number = number } };
}

impl RuleId {
    /// How many rules the table has.
    pub const COUNT: usize = 95;

    /// The rule's number: its place in the table, the first one at 1.
    pub fn number(self) -> usize
        ensures value { result ≡ self }
        ensures some { 1 ≤ result }
        ensures few { result ≤ rule_count }
    {
        self.number as usize
    }

    /// The rule at a place of the table, the first one at 0; none where the table ends before.
    pub fn at(i: usize) -> Option<RuleId>
        ensures { result ≡ (if nat_lt i rule_count then Some (i + 1) else None) }
    {
        if i >= RuleId::COUNT {
            return None;
        }
        let number = i as u8 + 1;
        Some(RuleId { number })
    }

    /// The rule's name.
    pub fn name(self) -> &'static str
        ensures { result.now ≡ (row_of self).name }
    {
        let Row(name, _, _) = row_of(self);
        name
    }

    // The rule of this name, by its name and those of the others.
    fn find(name: &[u8]) -> Option<RuleId>
        ensures found { IfSome result (λ rule. ((row_of rule).name ≡ name.now) × (1 ≤ rule) × (rule ≤ rule_count)) }
        ensures missing { MatchOption result ((number : ℕ) → 1 ≤ number → number ≤ rule_count → (row_of number).name ≢
            name.now) (λ rule. ⊤) }
    {
        for i in 0..RuleId::COUNT {
            let rule = RuleId::at(i)?;
            if rule.name().as_bytes() == name {
                return Some(rule);
            }
        }
        None
    }

    /// The rule of this name; none where no rule is so called.
    pub fn named(name: &[u8]) -> Option<RuleId>
        ensures exact { result ≡ rule_named name.now }
        ensures found { IfSome result (λ rule. (row_of rule).name ≡ name.now) }
        ensures missing { MatchOption result ((number : ℕ) → 1 ≤ number → number ≤ rule_count → (row_of number).name ≢
            name.now) (λ rule. ⊤) }
    {
        match RuleId::find(name) {
            Some(rule) => Some(rule),
            None => None,
        }
    }
}
