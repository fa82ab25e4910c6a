//! Runs tariffs, splits and a station's day on a few figures, and compares the words of refusals.
#![tactic(auto)]

#[cfg(test)]
mod days;
#[cfg(test)]
mod layered;
pub mod proportional;
#[cfg(test)]
mod proportions;
#[cfg(test)]
mod shares;
#[cfg(test)]
mod square;
#[cfg(test)]
mod wording;
