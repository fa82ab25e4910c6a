//! What kind a station is of, and how far its day has come.
ghost use Rattle.std.specs.Prelude.{◌≡◌};
ghost use Rattle.units.specs.Stations.{IsKindNumbered, phase_number};

use thiserror::Error;

/// What drives a station.
#[derive(Clone, Copy, PartialEq, Eq, Debug)]
pub enum Kind {
    Wind,
    Solar,
}

/// A number that names no kind of station.
#[derive(Clone, Copy, PartialEq, Eq, Debug, Error)]
#[error("there is no kind of station {0}")]
pub struct UnknownKind(pub u64);

impl TryFrom<u64> for Kind {
    type Error = UnknownKind;

    ghost try_from_gives = { IsKindNumbered };

    fn try_from(number: u64) -> Result<Kind, UnknownKind> {
        match number {
            0 => Ok(Kind::Wind),
            1 => Ok(Kind::Solar),
            _ => Err(UnknownKind(number)),
        }
    }
}

/// Which calls a station takes depends on its phase.
#[derive(Clone, Copy, PartialEq, Eq, Debug)]
pub enum Phase {
    /// Schedules are filed.
    Filing,
    /// The schedule is issued; it may be revised.
    Running,
    /// The day is over; meters are read.
    Metering,
    /// Charges and shares are posted.
    Settled,
}

impl Phase {
    /// The number by which a refusal names it: 0 to 3, in the order of the day.
    pub const fn number(self) -> u64
        ensures { result ≡ phase_number self }
    {
        self as u64
    }
}
