//! What every run of calls comes to, said of the data that the calls alone give.
#![tactic(auto)]

mod runs;

pub use runs::every_run_keeps_the_law;
