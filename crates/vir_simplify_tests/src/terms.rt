// Terms and steps as they stand in tables.
use std::alloc::{AllocError, Global};
use std::process::Abort;
use vir_simplify::{Equation, Step};
use vir_term::Term;

// Whether a term has this text.
pub(crate) fn expect_text(
    rt: &impl Abort,
    alloc: Global,
    term: &Term,
    text: &str,
) -> Result<(), AllocError> {
    assert!(rt; term.print(alloc)?.as_slice() == text.as_bytes(), "{text}");
    Ok(())
}

// The steps of a table.
pub(crate) fn steps_of(alloc: Global, rows: &[(Equation, u32)]) -> Result<Vec<Step>, AllocError> {
    let mut steps = Vec::new(alloc);
    for (equation, place) in rows {
        steps.push(Step {
            place: *place,
            equation: *equation,
        })?;
    }
    Ok(steps)
}
