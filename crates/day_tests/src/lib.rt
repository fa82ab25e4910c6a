//! Runs days, by lines and whole, and readers and writers that fail.
#![tactic(auto)]

#[cfg(test)]
mod by_lines;
#[cfg(test)]
mod streams;
#[cfg(test)]
mod whole;
