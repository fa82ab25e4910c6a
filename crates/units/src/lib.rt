//! What all layers share: limits, refusals, the typed calls and sets of blocks.
#![tactic(auto)]

pub mod bits;
pub mod call;
pub mod fault;
pub mod head;
pub mod laws;
pub mod limits;
pub mod station;
