//! Reads a line, as `(revise 0 1 92 (1000))`, as a call or as the opening of a book.
#![tactic(auto)]

mod arguments;
pub mod form;
pub mod lists;
pub mod read;
mod values;
