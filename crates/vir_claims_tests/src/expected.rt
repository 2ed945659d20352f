// What answers are to be.
use vir_course::Answer;

/// An answer, as what it is to be.
#[derive(Clone, Copy)]
pub enum Expected {
    Text(&'static str),
    Denial(&'static str),
}

/// Whether there is such an answer.
pub fn is_answered(answer: &Option<Answer>, expected: Expected) -> bool {
    match (answer, expected) {
        (Some(Answer::Text(bytes)), Expected::Text(text)) => bytes.as_slice() == text.as_bytes(),
        (Some(Answer::Denial(bytes)), Expected::Denial(text)) => bytes.as_slice()
            == text.as_bytes(),
        _ => false,
    }
}
