//! Writes calls as their lines, answers and statements.
#![tactic(auto)]

pub mod answers;
pub mod calls;
pub mod figures;
mod held;
pub mod laws;
mod page;
pub mod statement;
mod words;
mod writer;
