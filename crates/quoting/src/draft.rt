//! A request while its lines are read.
mod adds;

ghost use Rattle.std.specs.Prelude.{◌≤◌};
ghost use Rattle.std.specs.Option.{unwrap_or};
ghost use Rattle.units.specs.declared.limits.TheConstants.{STATION_KW};

use crate::choice::{KeyChoice, TariffChoice};
use arrayvec::ArrayVec;
use share::generator::Generator;
use units::limits::GENERATORS;

/// What the lines so far have given.
#[derive(Drop)]
pub struct Draft {
    tariff: Option<TariffChoice>,
    key: Option<KeyChoice>,
    schedule: Option<u32>,
    generators: ArrayVec<Generator, GENERATORS>,
    ghost scheduled: { unwrap_or schedule 0 ≤ STATION_KW },
}
