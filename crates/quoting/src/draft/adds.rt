//! A draft takes one line after another, and becomes a request.
ghost use Rattle.std.specs.Prelude.{◌≡◌, ◌<◌, ◌≤◌, MatchResult};
ghost use Rattle.quoting.specs.Choices.{name_of};
ghost use Rattle.quoting.specs.Drafts.{Added, Made, given_in};
ghost use Rattle.quoting.specs.Steps.{ending, nothing};
ghost use Rattle.quoting.specs.Taking.{Took};
ghost use Rattle.quoting.specs.Tests.{load_tests, rate_tests};
ghost use Rattle.quoting.specs.declared.complaint.Cause.TheVariants as cause;
ghost use Rattle.quoting.specs.declared.entry.Entry.TheVariants as entries;
ghost use Rattle.units.specs.Refusals.{Checks, first};

use crate::choice::{KeyChoice, TariffChoice};
use crate::complaint::{Cause, Quantity};
use crate::draft::Draft;
use crate::entry::{Entry, TariffName};
use crate::request::Request;
use arrayvec::ArrayVec;
use share::generator::Generator;
use share::load::Load;
use tariff::banded::Banded;
use tariff::single::SingleRate;
use units::limits::{
    GENERATOR_KW, GENERATORS, HIGHEST_RATE, LEAST_INSTALLED, MOST_INSTALLED, STATION_KW,
};

/// Refuses a number above its limit.
fn at_most(quantity: Quantity, value: u32, limit: u32) -> Result<(), Cause>
    ensures { MatchResult result (λ _. value ≤ limit) (λ e. (limit < value) × (e ≡ cause.Above quantity limit)) }
{
    if value > limit {
        return Err(Cause::Above { quantity, limit });
    }
    Ok(())
}

/// A tariff whose rates are within their limits.
fn priced(name: TariffName) -> Result<TariffChoice, Cause>
    ensures { Checks (first (rate_tests name)) (λ t. name_of t ≡ name) result }
{
    match name {
        TariffName::Bands(bands) => Ok(TariffChoice::Bands(bands)),
        TariffName::Rates { export, domestic } => {
            at_most(Quantity::ExportRate, export, HIGHEST_RATE)?;
            at_most(Quantity::DomesticRate, domestic, HIGHEST_RATE)?;
            let rates = SingleRate::new(export, domestic).unwrap();
            Ok(TariffChoice::Rates(rates))
        }
    }
}

/// A generator whose numbers are within their limits.
fn metered(load: Load) -> Result<Generator, Cause>
    ensures { Checks (first (load_tests load)) (λ g. g.load ≡ load) result }
{
    if load.installed < LEAST_INSTALLED {
        return Err(Cause::Under {
            quantity: Quantity::Installed,
            limit: LEAST_INSTALLED,
        });
    }
    at_most(Quantity::Installed, load.installed, MOST_INSTALLED)?;
    at_most(Quantity::Capacity, load.capacity, load.installed)?;
    at_most(Quantity::Reading, load.actual, GENERATOR_KW)?;
    Ok(Generator::new(load))
}

impl Draft {
    /// Before the first line.
    pub fn new() -> Draft
        ensures { given_in result ≡ nothing }
    {
        Draft {
            tariff: None,
            key: None,
            schedule: None,
            generators: ArrayVec::new(),
        }
    }

    /// Takes the next line. A blank one, or one that is refused, changes nothing.
    pub fn read_line(&mut self, line: &str) -> Result<(), Cause>
        ensures { Took line.now self.old result self.new }
    {
        match Entry::read(line)? {
            Some(entry) => self.add(entry),
            None => Ok(()),
        }
    }

    /// Takes what a line says. A line that is refused changes nothing.
    fn add(&mut self, entry: Entry) -> Result<(), Cause>
        ensures { Added self.old entry result self.new }
    {
        match entry {
            Entry::Tariff(name) => self.add_tariff(name),
            Entry::Key(key) => self.add_key(key),
            Entry::Schedule(kw) => self.add_schedule(kw),
            Entry::Generator(load) => self.add_generator(load),
        }
    }

    fn add_tariff(&mut self, name: TariffName) -> Result<(), Cause>
        ensures { Added self.old (entries.Tariff name) result self.new }
    {
        if self.tariff.is_some() || self.key.is_some() || self.schedule.is_some() {
            return Err(Cause::LateTariff);
        }
        self.tariff = Some(priced(name)?);
        Ok(())
    }

    fn add_key(&mut self, key: KeyChoice) -> Result<(), Cause>
        ensures { Added self.old (entries.Key key) result self.new }
    {
        if self.key.is_some() || self.schedule.is_some() {
            return Err(Cause::LateKey);
        }
        self.key = Some(key);
        Ok(())
    }

    fn add_schedule(&mut self, kw: u32) -> Result<(), Cause>
        ensures { Added self.old (entries.Schedule kw) result self.new }
    {
        if self.schedule.is_some() {
            return Err(Cause::SecondSchedule);
        }
        at_most(Quantity::Schedule, kw, STATION_KW)?;
        self.schedule = Some(kw);
        Ok(())
    }

    fn add_generator(&mut self, load: Load) -> Result<(), Cause>
        ensures { Added self.old (entries.Generator load) result self.new }
    {
        if self.schedule.is_none() {
            return Err(Cause::EarlyGenerator);
        }
        if self.generators.is_full() {
            return Err(Cause::ManyGenerators);
        }
        self.generators.push(metered(load)?);
        Ok(())
    }

    /// The request, if nothing is missing. Where no tariff is named it is that of bands from 10 percent, and where
    /// no key is named it is that of units.
    pub fn finish(self) -> Result<Request, Cause>
        ensures { Checks (first (ending (given_in self))) (Made (given_in self)) result }
    {
        let schedule = self.schedule.ok_or(Cause::NoSchedule)?;
        if self.generators.is_empty() {
            return Err(Cause::NoGenerator);
        }
        let count = self.generators.len();
        let mut generators = [Generator::default(); GENERATORS];
        generators[..count].copy_from_slice(&self.generators);
        Ok(Request {
            tariff: self.tariff.unwrap_or(TariffChoice::Bands(Banded::From10)),
            key: self.key.unwrap_or(KeyChoice::Units),
            schedule,
            generators,
            count,
        })
    }
}
