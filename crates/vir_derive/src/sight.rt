// What is derivable of a term, told by the rows of the table from all that they see of it.
ghost use Rattle.std.specs.Prelude.{◌≡◌, ◌≢◌, ◌↔◌, ℕ, Bool, false, Some, nat_eq, IsTrue, MatchBool};
ghost use Rattle.vir_term.specs.Tree.{Tree};
ghost use Rattle.vir_term.specs.declared.prop.Prop.TheVariants as prop;
ghost use Rattle.vir_rules.specs.Claims.{of};
ghost use Rattle.vir_rules.specs.Derivations.{Derivable, Fails};
ghost use Rattle.vir_rules.specs.Forms.{form_seen};
ghost use Rattle.vir_rules.specs.Premises.{filled, is_rule, letters_of};
ghost use Rattle.vir_derive.specs.Numbers.{defers_candidate, rejects_candidate, is_within, is_need_within, AreEnough};
ghost use Rattle.vir_derive.specs.Ranges.{first_row, end_row, later_row, later_end};
ghost use Rattle.vir_derive.specs.Sights.{Shows};
ghost use Rattle.vir_derive.specs.DerivableProps.{is_number, IsTold};

use crate::derivable_props::DerivableProps;
use vir_rules::{Form, Need, Part, Prop, RuleId, need_at, need_count, number_for, prop_for};
use vir_term::Leaf;

// All that the rules see of a term: its form, what is derivable of its parts, and whether the heads of
// its parts are opposed.
#[derive(Clone, Copy)]
pub(crate) struct Sight<'a> {
    pub(crate) form: Form<'a>,
    pub(crate) first: DerivableProps,
    pub(crate) second: DerivableProps,
    pub(crate) opposed: bool,
}

// How many rows of the table stand before the first ones that conclude the property, and up to the last of these.
fn rows_of(prop: Prop) -> (usize, usize)
    ensures first { result.0 ≡ first_row prop }
    ensures end { result.1 ≡ end_row prop }
{
    match prop {
        Prop::Ne => (0, 5),
        Prop::Ea => (5, 9),
        Prop::El => (9, 15),
        Prop::Defers(_) => (15, 20),
        Prop::Rejects(_) => (20, 21),
        Prop::Elim(_) => (21, 23),
        Prop::Nb => (23, 31),
        Prop::Decr => (31, 36),
        Prop::Dli => (36, 41),
        Prop::Imono => (41, 42),
        Prop::Dimono => (42, 45),
        Prop::Dmono => (45, 50),
        Prop::Mono => (50, 56),
        Prop::Cc => (56, 60),
        Prop::Dcc => (60, 66),
        Prop::Cprog => (66, 70),
        Prop::Ccomp => (70, 76),
        Prop::Neut => (76, 76),
    }
}

// The same for the later rows that conclude it; where there are none, all rows stand before them.
fn later_rows_of(prop: Prop) -> (usize, usize)
    ensures first { result.0 ≡ later_row prop }
    ensures end { result.1 ≡ later_end prop }
{
    match prop {
        Prop::Neut => (82, 88),
        Prop::Ne => (88, 89),
        Prop::Defers(_) => (89, 91),
        Prop::Nb => (91, 92),
        Prop::Dli => (92, 93),
        Prop::Dcc => (93, 94),
        Prop::Ccomp => (94, RuleId::COUNT),
        _ => (RuleId::COUNT, RuleId::COUNT),
    }
}

impl<'a> Sight<'a> {
    // Whether the property is derivable of the term.
    #[cycle(derives)]
    pub(crate) fn derives(&self, prop: Prop) -> bool
        ensures { (numbers : ℕ → Bool) → AreEnough numbers → (term : Tree) → Shows numbers self.now term
            → IsTrue (is_within numbers prop) → IsTrue result ↔ Derivable (of prop term) }
    {
        let (first, end) = rows_of(prop);
        for i in first..end {
            let Some(rule) = RuleId::at(i) else {
                unreachable!()
            };
            if self.serves(rule, prop) {
                return true;
            }
        }
        let (first, end) = later_rows_of(prop);
        for j in first..end {
            let Some(rule) = RuleId::at(j) else {
                unreachable!()
            };
            if self.serves(rule, prop) {
                return true;
            }
        }
        false
    }

    // Whether the rule serves to derive the property of the term.
    #[cycle(derives)]
    fn serves(&self, rule: RuleId, prop: Prop) -> bool
        requires { IsTrue (is_rule rule) }
        ensures { (numbers : ℕ → Bool) → AreEnough numbers → (term : Tree) → Shows numbers self.now term
            → IsTrue (is_within numbers prop)
            → MatchBool result (Derivable (of prop term)) (Fails rule (of prop term)) }
    {
        let Some(k) = number_for(rule, prop, self.form) else {
            return false;
        };
        for i in 0..need_count(rule) {
            let Some(need) = need_at(rule, i) else {
                unreachable!()
            };
            if !self.derives_need(need, k) {
                return false;
            }
        }
        true
    }

    // Whether the premise is derivable, where the row's number is k.
    #[cycle(derives)]
    fn derives_need(&self, need: Need, k: u32) -> bool
        requires { IsTold (form_seen self.now.form) need }
        ensures { (numbers : ℕ → Bool) → AreEnough numbers → (term : Tree) → Shows numbers self.now term
            → IsTrue (is_need_within numbers k need) → IsTrue result ↔ Derivable (filled (letters_of term k) need) }
    {
        match need {
            Need::Of(wanted, Part::M) => self.first.has(prop_for(wanted, k)),
            Need::Of(wanted, Part::N) => self.second.has(prop_for(wanted, k)),
            Need::Of(wanted, Part::T) => self.derives(prop_for(wanted, k)),
            // A row on one term has no other term.
            Need::Of(_, Part::U) => unreachable!(),
            // A row asks this only of the first part and the second.
            Need::Disj(_, _) => self.opposed,
        }
    }

    // The one number but 1 with which `defers` can be derivable.
    fn defers_candidate(self) -> Option<u32>
        ensures { result ≡ defers_candidate (form_seen self.entry.form) self.entry.first.defers_other }
    {
        match self.form {
            Form::Leaf(Leaf::PassFirst { k, .. }) => Some(*k),
            Form::Loop(k) | Form::Until(k) => Some(k),
            Form::Seq => self.first.defers_other,
            _ => None,
        }
    }

    // The one number with which `rejects` can be derivable.
    fn rejects_candidate(self) -> Option<u32>
        ensures { result ≡ rejects_candidate (form_seen self.entry.form) }
    {
        match self.form {
            Form::Leaf(Leaf::DropFirst { k, .. }) => Some(*k),
            _ => None,
        }
    }

    // The number, not 1, with which `defers` is derivable.
    pub(crate) fn defers_other(self) -> Option<u32>
        ensures other { result ≢ Some 1 }
        ensures derivable { (numbers : ℕ → Bool) → AreEnough numbers → (term : Tree) → Shows numbers self.entry term
            → (k : ℕ) → nat_eq k 1 ≡ false → IsTrue (numbers k) → IsTrue (is_number result k)
            ↔ Derivable (of (prop.Defers k) term) }
    {
        let k = self.defers_candidate()?;
        if k == 1 || !self.derives(Prop::Defers(k)) {
            return None;
        }
        Some(k)
    }

    // The number with which `rejects` is derivable.
    pub(crate) fn rejects(self) -> Option<u32>
        ensures { (numbers : ℕ → Bool) → AreEnough numbers → (term : Tree) → Shows numbers self.entry term → (k : ℕ)
            → IsTrue (numbers k) → IsTrue (is_number result k) ↔ Derivable (of (prop.Rejects k) term) }
    {
        let k = self.rejects_candidate()?;
        if !self.derives(Prop::Rejects(k)) {
            return None;
        }
        Some(k)
    }
}
