//! The tests of `vir_soc`, in a crate of their own: what no clause of the format's layer says.
//!
//! Texts with the fault that each is known to have, by hand and in each cutting; orders of each length
//! that a ballot holds in another form; the limits of lines, of voters and of bytes, each at its end and
//! one past it; and the very bytes that a file is written in. There is no code but the tests, so the
//! crate has no contract, and `vir_soc` is proved without them. It stands on `vir_soc`, and on
//! `vir_profile` for what a file says.
#![tactic(auto)]

#[cfg(test)]
mod answers;
#[cfg(test)]
mod cuts;
#[cfg(test)]
mod faults;
#[cfg(test)]
mod files;
#[cfg(test)]
mod lengths;
#[cfg(test)]
mod limits;
#[cfg(test)]
mod samples;
