//! The program as a library for C, for callers in the same process: words and files in, the status and the two
//! texts out. Its one export, [`virage_call`], does with files in memory what the program does with those of its
//! folder. No device stands between, and so its contract is stronger than that of `main`: the files are told, the
//! texts are told, and no status comes from a fault.
#![tactic(auto)]

mod buffers;
mod calling;
mod export;
mod pieces;
mod sizes;
mod sure_shelf;
#[cfg(test)]
mod tests;

pub use export::virage_call;
pub use sizes::{FileSizes, Told};
