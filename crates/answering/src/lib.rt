//! Lines are read, their calls are made, and answers and statements are written.
#![tactic(auto)]

mod by_line;
mod statements;

pub use by_line::{apply, line, open, start};
pub use statements::statement;
