//! The figures of a statement.

/// What a station's line says. Amounts are paise.
#[derive(Clone, Copy, PartialEq, Eq, Debug)]
pub struct StationLine {
    pub station: u64,
    /// The tariff's code.
    pub code: u64,
    pub charges: i64,
    pub due: i64,
    /// The pool's cash.
    pub cash: u64,
}

/// What a generator's line says: its shares of the deviation and of the charges.
#[derive(Clone, Copy, PartialEq, Eq, Debug, Default)]
pub struct GeneratorLine {
    pub generator: u64,
    pub energy: i64,
    pub money: i64,
}
