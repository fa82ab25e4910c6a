//! A whole day, from the bytes of a reader to those of a writer.
#![tactic(auto)]

mod ahead;
mod taking;
mod whole;

pub use whole::run;
