//! What is wrong with a request.
use std::fmt;
use thiserror::Error;
use units::limits::GENERATORS;

/// A number of a request that has a limit.
#[derive(Clone, Copy, PartialEq, Eq, Debug)]
pub enum Quantity {
    ExportRate,
    DomesticRate,
    Schedule,
    Installed,
    Capacity,
    Reading,
}

impl fmt::Display for Quantity {
    fn fmt<W: fmt::Write>(&self, f: &mut fmt::Formatter<W>) -> fmt::Result {
        f.write_str(match self {
            Quantity::ExportRate => "export rate",
            Quantity::DomesticRate => "domestic rate",
            Quantity::Schedule => "schedule",
            Quantity::Installed => "installed power",
            Quantity::Capacity => "capacity",
            Quantity::Reading => "reading",
        })
    }
}

/// Why a line is refused.
#[derive(Clone, Copy, PartialEq, Eq, Debug, Error)]
pub enum Cause {
    #[error("the first word is none of tariff, key, schedule and generator")]
    UnknownLine,
    #[error("the tariff is none of 10-20-30, 15-25-35 and single")]
    UnknownTariff,
    #[error("the key is neither units nor capacity")]
    UnknownKey,
    #[error("the line does not have {needed} words")]
    WordCount { needed: usize },
    /// The place is counted from 1.
    #[error("word {place} is not a whole number in digits alone")]
    NotNumber { place: usize },
    #[error("the {quantity} is above {limit}")]
    Above { quantity: Quantity, limit: u32 },
    #[error("the {quantity} is below {limit}")]
    Under { quantity: Quantity, limit: u32 },
    #[error("the tariff stands before all other lines, once")]
    LateTariff,
    #[error("the key stands before the schedule, once")]
    LateKey,
    #[error("there is a schedule already")]
    SecondSchedule,
    #[error("the schedule stands before the generators")]
    EarlyGenerator,
    #[error("there are {most} generators already, and no more are allowed", most = GENERATORS)]
    ManyGenerators,
    /// The request ends without a schedule.
    #[error("the schedule is missing")]
    NoSchedule,
    /// The request ends without a generator.
    #[error("there is no generator")]
    NoGenerator,
}

/// The line that is refused, counted from 1, and why. What is missing at the end is missed on the line after the last.
#[derive(Clone, Copy, PartialEq, Eq, Debug, Error)]
#[error("line {line}: {cause}")]
pub struct Complaint {
    pub line: usize,
    pub cause: Cause,
}
