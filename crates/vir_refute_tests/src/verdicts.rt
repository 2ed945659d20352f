// What is said of a case of a rule.
use std::alloc::Global;
use std::process::Abort;
use std::test::Fail;
use vir_book::read_book;
use vir_refute::{Case, CaseVerdict, is_about, judge_case};
use vir_term::Prop;

/// Judges a case of the last rule of a text, and wants this verdict.
pub fn expect_verdict(
    rt: &impl Abort,
    alloc: Global,
    text: &str,
    prop: Prop,
    case: &Case,
    verdict: CaseVerdict,
) -> Result<(), Fail> {
    let book = read_book(alloc, text.as_bytes())?;
    assert!(rt; is_about(prop, case), "{prop:?}");
    let said = judge_case(alloc, book.last_rule(), prop, case)?;
    assert!(rt; said == verdict, "{prop:?} of {text}");
    Ok(())
}
