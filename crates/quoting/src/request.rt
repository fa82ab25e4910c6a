//! A request for a quote.
mod asks;
mod reads;

ghost use Rattle.std.specs.Prelude.{◌<◌, ◌≤◌};
ghost use Rattle.units.specs.declared.limits.TheConstants.{GENERATORS, STATION_KW};

use crate::choice::{KeyChoice, TariffChoice};
pub use reads::read_request;
use share::generator::Generator;
use units::limits::GENERATORS;

/// A tariff, a key, a schedule of at most 6,400,000 kW, and 1 to 32 generators.
#[derive(Clone, Copy)]
pub struct Request {
    pub(crate) tariff: TariffChoice,
    pub(crate) key: KeyChoice,
    pub(crate) schedule: u32,
    pub(crate) generators: [Generator; GENERATORS],
    pub(crate) count: usize,
    ghost within: { schedule ≤ STATION_KW },
    ghost some: { 0 < count },
    ghost few: { count ≤ GENERATORS },
}
