//! A station's amounts, split among its generators by a key.
#![tactic(auto)]

pub mod amounts;
pub mod generator;
pub mod generators;
pub mod key;
pub mod load;
mod magnitude;
mod quotient;
pub mod splitter;
pub mod weights;
