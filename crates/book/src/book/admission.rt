//! What every call tests first: the pages, the station or generator, and the station's phase.
ghost use Rattle.std.specs.Prelude.{◌≡◌, ◌≤◌, position};
ghost use Rattle.units.specs.Refusals.{Checks};
ghost use Rattle.units.specs.declared.limits.TheConstants.{ALL_GENERATORS, STATIONS};
ghost use Rattle.book.specs.States.{admission, Admitted, Fit, Found, generator_admission, generator_presence, lengths_in, no_station_of, Owned, Owner, presence, reaches, Room, short_for, short_page, short_pages, state, StationIs};

use super::Book;
use crate::station::Station;
use posting::pages::Pages;
use share::key::Key;
use tariff::tariff::Tariff;
use units::fault::{Fault, Page};
use units::head::Head;
use units::limits::BLOCKS;

/// A page of `length` entries has the needed ones.
fn long_enough(page: Page, length: usize, needed: usize) -> Result<(), Fault>
    ensures { Checks (short_page page length needed) (λ _. needed ≤ length) result }
{
    if length < needed {
        return Err(Fault::ShortPage {
            page: page.number(),
            needed: needed as u64,
        });
    }
    Ok(())
}

/// The pages have room for so many stations and generators.
pub fn fitting_pages(pages: &Pages, stations: usize, generators: usize) -> Result<(), Fault>
    requires few { stations ≤ STATIONS }
    requires most { generators ≤ ALL_GENERATORS }
    ensures { Checks (short_for stations generators (lengths_in pages.now)) (λ _. Room stations generators (lengths_in pages.now)) result }
{
    long_enough(Page::Schedules, pages.schedules.len(), BLOCKS * stations)?;
    long_enough(
        Page::Capacities,
        pages.capacities.len(),
        BLOCKS * generators,
    )?;
    long_enough(Page::Readings, pages.readings.len(), BLOCKS * generators)?;
    long_enough(Page::Accounts, pages.accounts.len(), generators)
}

impl<T: Tariff, K: Key> Book<T, K> {
    /// The pages are long enough for the book.
    pub(crate) fn fit(&self, pages: &Pages) -> Result<(), Fault>
        ensures { Checks (short_pages (state self.now pages.now)) (λ _. Fit (state self.now pages.now)) result }
    {
        fitting_pages(pages, self.stations.len(), self.generators)
    }

    /// There is such a station.
    pub(crate) fn station(&self, t: u64) -> Result<Station, Fault>
        ensures { Checks (no_station_of self.now.stations.items t) (StationIs self.now.stations.items self.now.cash t) result }
    {
        self.stations
            .get(t as usize)
            .copied()
            .ok_or(Fault::NoSuchNumber { number: t })
    }

    /// The pages fit, and there is such a station.
    pub(crate) fn find_station(&self, pages: &Pages, t: u64) -> Result<Station, Fault>
        ensures { Checks (presence t (state self.now pages.now)) (Found t (state self.now pages.now)) result }
    {
        self.fit(pages)?;
        self.station(t)
    }

    /// The station in the phase that the action leads to, if it takes the action.
    pub(crate) fn admit(&self, pages: &Pages, t: u64, action: Head) -> Result<Station, Fault>
        ensures { Checks (admission action t (state self.now pages.now)) (Admitted action t (state self.now pages.now)) result }
    {
        let station = self.find_station(pages, t)?;
        station.moved(t, action)
    }

    /// The first station that has the generator or one after it.
    fn owner(&self, generator: u64) -> Option<usize>
        ensures { result ≡ position (reaches generator) self.now.stations.items }
    {
        self.stations
            .iter()
            .position(|station| generator < station.plant.members.end() as u64)
    }

    /// The pages fit, and there is such a generator: its station's number.
    pub(crate) fn find_generator(&self, pages: &Pages, generator: u64) -> Result<usize, Fault>
        ensures { Checks (generator_presence generator (state self.now pages.now)) (Owner generator (state self.now pages.now)) result }
    {
        self.fit(pages)?;
        self.owner(generator)
            .ok_or(Fault::NoSuchNumber { number: generator })
    }

    /// The generator's station, with its number, if there is such a generator and its station takes the action.
    pub(crate) fn admit_generator(
        &self,
        pages: &Pages,
        generator: u64,
        action: Head,
    ) -> Result<(usize, Station), Fault>
        ensures { Checks (generator_admission action generator (state self.now pages.now)) (Owned action generator (state self.now pages.now)) result }
    {
        let t = self.find_generator(pages, generator)?;
        let station = self.stations[t].moved(t as u64, action)?;
        Ok((t, station))
    }
}
