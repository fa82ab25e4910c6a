//! Good and bad requests: what is answered, and which line is blamed for what.
#![tactic(auto)]

#[cfg(test)]
mod tests;
