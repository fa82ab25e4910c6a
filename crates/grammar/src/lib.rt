//! The line language: which lines are forms, and the form that spells a call.
#![tactic(auto)]

pub mod laws;
pub mod line;
