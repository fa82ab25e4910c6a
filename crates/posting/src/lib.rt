//! A station's day, taken from its pages: charges, deviations, and what each generator gets of them.
#![tactic(auto)]

pub mod account;
pub mod amounts;
pub mod block;
pub mod day;
pub mod members;
pub mod missing;
pub mod pages;
pub mod place;
