//! Tariffs that stand over any other tariff, by value, and change some of its charges.
#![tactic(auto)]

pub mod layered;
pub mod penalty;
pub mod waiver;
