//! The quote that a request asks for.
ghost use Rattle.quoting.specs.Requests.{Answered, AnsweredBy};

use crate::choice::{KeyChoice, TariffChoice};
use crate::quotation::{Quotation, quote_for};
use crate::request::Request;
use share::generators::Generators;
use share::key::{CapacityKey, Key, UnitsKey};

impl Request {
    /// What the block costs the station, and what each generator bears.
    pub fn quote(&self) -> Quotation
        ensures { Answered self.now result }
    {
        match self.key {
            KeyChoice::Units => self.quote_by(&UnitsKey),
            KeyChoice::Capacity => self.quote_by(&CapacityKey),
        }
    }

    /// The same by this key.
    fn quote_by<K: Key>(&self, key: &K) -> Quotation
        ensures { AnsweredBy K.Key.weighs self.now result }
    {
        let generators = Generators::of(&self.generators[..self.count]).unwrap();
        match self.tariff {
            TariffChoice::Bands(bands) => quote_for(&bands, key, self.schedule, &generators),
            TariffChoice::Rates(rates) => quote_for(&rates, key, self.schedule, &generators),
        }
    }
}
