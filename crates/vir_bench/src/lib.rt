//! The top call on a bench that serves every module, as the program and the library for C make it.
//!
//! [`call_on_full_bench`] makes a bench of eight counters, which its contract names one by one
//! (`specs/FullBench.antt`), and does what `virage` of `vir_top` does on it.
#![tactic(auto)]

mod full_bench;

pub use full_bench::call_on_full_bench;
