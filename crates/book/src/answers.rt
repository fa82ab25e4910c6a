//! What the questions answer.
use posting::account::Account;
use units::station::Phase;

/// How far a station's day has come.
#[derive(Clone, Copy)]
pub struct Progress {
    pub phase: Phase,
    /// How many blocks have a schedule.
    pub filed: u32,
    /// How many revisions were made.
    pub revisions: u32,
}

/// The figures of a station's statement, and its generators' accounts.
#[derive(Drop)]
pub struct Statement<'a> {
    pub station: u64,
    pub code: u8,
    pub charges: i64,
    pub due: i64,
    pub cash: u64,
    /// The number of the first generator.
    pub first: usize,
    pub accounts: &'a [Account],
}
