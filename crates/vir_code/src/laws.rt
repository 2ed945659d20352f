// What holds of code. Each law is the contract of a function that does nothing.
ghost use Rattle.vir_code.specs.Code.{CodesAreUnique};

/// No two terms have the same code.
#[tactic(auto, using(crate::proofs::Unique::unique))]
pub fn no_two_terms_have_the_same_code()
    ensures { CodesAreUnique }
{}
