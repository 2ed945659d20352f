// A rule file, read whole and judged.
ghost use Rattle.std.specs.Prelude.{◌≡◌, IfOk};
ghost use Rattle.vir_book.specs.Books.{rule_of};
ghost use Rattle.vir_course.specs.declared.stop.Stop.TheVariants.{Memory};
ghost use Rattle.vir_files.specs.Files.{rules};
ghost use Rattle.vir_files.specs.Judges.{Judges};
ghost use Rattle.vir_files.specs.Performs.{ReadsFile};
ghost use Rattle.vir_term.specs.Limits.{IsWithinLimits};
ghost use Rattle.vir_term.specs.Tree.{tree};

use crate::text_file::text_file;
use std::alloc::Global;
use vir_book::{RULE_FILE_LIMIT, read_rule};
use vir_course::Stop;
use vir_outside::Shelf;
use vir_read::TextError;
use vir_term::Term;

// The rule that the text of a rule file defines last.
fn judge(alloc: Global, text: &[u8]) -> Result<Term, Stop>
    ensures judges { Judges tree (rule_of text.now) result }
    ensures within { IfOk result (λ term. IsWithinLimits (tree term)) }
{
    match read_rule(alloc, text) {
        Ok(rule) => Ok(rule),
        Err(TextError::Fault(fault)) => Err(Stop::TextRefused(fault)),
        Err(TextError::Memory) => Err(Stop::Memory),
    }
}

/// The rule that a file defines last.
pub fn rule_file<S: Shelf>(alloc: Global, shelf: &mut S, name: &str) -> Result<Term, Stop>
    ensures reads { ReadsFile rules (λ t x. t ≡ tree x) name.now (S.seen shelf.old) (S.seen shelf.new) result }
    ensures within { IfOk result (λ term. IsWithinLimits (tree term)) }
{
    let text = text_file(alloc, shelf, name, RULE_FILE_LIMIT)?;
    judge(alloc, &text)
}
