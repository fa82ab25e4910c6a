//! Opens a book.
ghost use Rattle.book.specs.Opening.{Openable, opening_fault, Opens};
ghost use Rattle.units.specs.Refusals.{Checks};

use super::Book;
use super::admission::fitting_pages;
use crate::opening::{
    installed_count, installed_range, lay_stations, sound_stations, station_count,
};
use crate::pages::begin;
use posting::pages::Pages;
use share::key::Key;
use tariff::tariff::Tariff;
use units::call::Opening;
use units::fault::Fault;

/// A book may be opened so, with these pages: the number of its generators.
fn openable(opening: &Opening, pages: &Pages) -> Result<usize, Fault>
    ensures { Checks (opening_fault opening.now pages.now) (Openable opening.now pages.now) result }
{
    station_count(opening.kinds.len(), opening.counts.len())?;
    let generators = sound_stations(opening.kinds, opening.counts)?;
    installed_count(opening.installed.len(), generators)?;
    installed_range(opening.installed)?;
    fitting_pages(pages, opening.kinds.len(), generators)?;
    Ok(generators)
}

impl<T: Tariff + Drop, K: Key + Drop> Book<T, K> {
    /// Opens a book for a day that begins. A refusal changes nothing.
    pub fn open(
        tariff: T,
        key: K,
        opening: &Opening,
        pages: &mut Pages,
    ) -> Result<Book<T, K>, Fault>
        ensures { Opens tariff key opening.now pages.old pages.new result }
    {
        let generators = openable(opening, pages)?;
        let stations = lay_stations(opening.kinds, opening.counts);
        begin(pages, stations.len(), opening.installed);
        Ok(Book {
            tariff,
            key,
            stations,
            generators,
            cash: 0,
        })
    }
}
