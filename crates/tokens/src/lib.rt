//! Reads the parts of a line, its word, numbers and lists, one at a time.
#![tactic(auto)]

pub mod laws;
pub mod parts;
pub mod reader;
pub mod token;
