// What a violation means. Each law is the contract of a function that does nothing.
ghost use Rattle.std.specs.Prelude.{◌↔◌};
ghost use Rattle.vir_term.specs.Tree.{Tree};
ghost use Rattle.vir_term.specs.declared.prop.Prop.{Prop};
ghost use Rattle.vir_mean.specs.Meaning.{mean};
ghost use Rattle.vir_mean.specs.Properties.{Holds};
ghost use Rattle.vir_refute.specs.Violations.{IsNeverViolated};

/// A property holds of a rule exactly where no case violates it, of all sets of alternatives and all
/// profiles, and of neutrality all renamings: what counts as a case, its premise and its conclusion are
/// those of the property.
#[tactic(auto, using(crate::proofs::NoViolations::holds_unless_violated))]
pub fn properties_hold_unless_violated()
    ensures { (t : Tree) (prop : Prop) → Holds prop (mean t) ↔ IsNeverViolated prop (mean t) }
{}
