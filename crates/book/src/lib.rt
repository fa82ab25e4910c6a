//! The book of one settlement day: its calls as computations on the book and the lent pages.
#![tactic(auto)]

mod answers;
mod book;
mod checks;
mod opening;
mod pages;
pub mod promises;
mod station;

pub use answers::{Progress, Statement};
pub use book::Book;
pub use posting::amounts::Amounts;
pub use posting::pages::Pages;
