//! What a program meets of the outside: a shelf of files, of which one at a time is selected and
//! read, and sinks that bytes are written to.
//!
//! Each counts its faults, and a call fails only where the count rose, or where a shelf that tells
//! its files has none of the name. The shelf and the sink in memory tell all that they hold, and fail
//! at the calls that are listed; those over the current folder and over a writer of the standard
//! library tell nothing of content, and are the edge that is trusted. `read_whole` and `write_whole`
//! work at each of them, and their contract says what is read and written, what else they answer and
//! why, and what they leave. The crate stands on the standard library, and on `thiserror` for its
//! errors.
#![tactic(auto)]

mod counted;
mod folder;
mod memory_shelf;
mod memory_sink;
mod reading;
mod shelf;
mod sink;
mod stored;
mod stream;
#[cfg(test)]
mod tests;
mod trail;
mod writing;

pub use folder::FolderShelf;
pub use memory_shelf::MemoryShelf;
pub use memory_sink::MemorySink;
pub use reading::{ReadStop, read_whole};
pub use shelf::{Failed, Shelf};
pub use sink::Sink;
pub use stream::StreamSink;
pub use writing::write_whole;
