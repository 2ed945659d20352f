// The counting code of a rule.
ghost use Rattle.std.specs.Prelude.{◌≡◌, [], IfOk};
ghost use Rattle.vir_code.specs.Code.{code_of};
ghost use Rattle.vir_code.specs.Listing.{listing_text};
ghost use Rattle.vir_course.specs.Courses.{Follows};
ghost use Rattle.vir_course.specs.Wordings.{Tells};
ghost use Rattle.vir_term.specs.Limits.{IsWithinLimits};
ghost use Rattle.vir_term.specs.Tree.{tree};
ghost use Rattle.vir_claims.specs.Claims.{listing_course};

use std::alloc::{AllocError, Global};
use vir_compile::compile;
use vir_course::{Answer, Stop};
use vir_term::Term;

// The listing of the code that the rule is compiled to.
fn code_text(alloc: Global, rule: &Term) -> Result<Vec<u8>, AllocError>
    requires { IsWithinLimits (tree rule.now) }
    ensures { IfOk result (λ text. text.items ≡ listing_text (code_of (tree rule.now))) }
{
    let code = compile(alloc, rule)?;
    vir_code::listing(alloc, &code)
}

/// Answers `listing` for a rule: it is compiled, and no run is made of it. Whether the counters of a bench
/// serve its modules doesn't matter.
pub fn listing(alloc: Global, rule: &Term) -> Result<Answer, Stop>
    requires { IsWithinLimits (tree rule.now) }
    ensures { Follows Tells ⊥ (listing_course (tree rule.now)) [] result }
{
    Ok(Answer::Text(code_text(alloc, rule)?))
}
