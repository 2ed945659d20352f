//! What a call comes to: its course, and what answers it.
//!
//! A course is the steps of a call, files that it reads and runs that it makes on the bench, and the end
//! that these lead to: a value, or a reason to stop (`specs/Courses.antt`). What each text must say that a
//! call prints is a wording (`specs/Wordings.antt`). Readers of files, the workers of the commands and the
//! program say by these definitions what they do. This layer's own calls give the text of a module, and append
//! to a text what several commands say of a property: that it holds, or why it isn't derived.
#![tactic(auto)]

mod answer;
mod findings;
mod leaf_text;
mod stop;

pub use answer::Answer;
pub use findings::{push_held, push_underived};
pub use leaf_text::LeafText;
pub use stop::Stop;
