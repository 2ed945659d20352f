// Reasons against judgements.
ghost use Rattle.std.specs.Prelude.{◌≡◌, [], ◌∷◌, ◌++◌, length, slice_get, option_map, OnOk, OnErr};
ghost use Rattle.vir_rules.specs.Reasons.{reason_seen, reasons_seen};

use crate::judgement::Judgement;
use crate::rule_id::RuleId;
use std::alloc::{AllocError, Global};

/// Why a rule that fits a judgement doesn't derive it: its first premise that can't be derived, with its
/// number from 1.
#[derive(Clone, Copy)]
pub struct WhyLine<'a> {
    pub rule: RuleId,
    pub number: u8,
    pub premise: Judgement<'a>,
}

/// The reasons against a judgement, in the order of the table.
#[derive(Drop)]
pub struct Why<'a> {
    lines: Vec<WhyLine<'a>>,
}

impl<'a> Why<'a> {
    /// No reasons. The allocator is for those that come.
    pub fn new(alloc: Global) -> Why<'a>
        ensures { reasons_seen result ≡ [] }
    {
        Why {
            lines: Vec::new(alloc),
        }
    }

    /// Adds a reason at the end. Where memory runs out, the list is as before.
    pub fn push(&mut self, line: WhyLine<'a>) -> Result<(), AllocError>
        ensures ok { OnOk result (reasons_seen self.new ≡ reasons_seen self.old ++ reason_seen line.entry ∷ []) }
        ensures err { OnErr result (reasons_seen self.new ≡ reasons_seen self.old) }
    {
        // What is pushed is made anew, of the parts of what was passed.
        let WhyLine {
            rule,
            number,
            premise,
        } = line;
        let pushed = self.lines.push(WhyLine {
            rule,
            number,
            premise,
        });
        if pushed.is_ok() {
            Ok(())
        } else {
            Err(AllocError)
        }
    }

    /// How many reasons there are.
    pub fn len(&self) -> usize
        ensures { result ≡ length (reasons_seen self.now) }
    {
        self.lines.len()
    }

    /// The reason at a place, the first one at 0; none where the list ends before.
    pub fn at(&self, i: usize) -> Option<&WhyLine<'a>>
        ensures { option_map (λ line. reason_seen line.now) result ≡ slice_get (reasons_seen self.now) i }
    {
        self.lines.get(i)
    }
}
