//! Calls that post a day's charges and shares.
ghost use Rattle.book.specs.Calls.{correcting, Makes, posted, settling};
ghost use Rattle.book.specs.Sound.{Changes};
ghost use Rattle.book.specs.Stations.{is_settled};
ghost use Rattle.book.specs.States.{state};
ghost use Rattle.std.specs.Prelude.{◌≡◌, true};

use super::Book;
use crate::checks::{complete, in_blocks};
use crate::pages::post;
use crate::station::Station;
use posting::pages::Pages;
use posting::place::Place;
use share::key::Key;
use tariff::tariff::Tariff;
use units::fault::Fault;
use units::head::Head;
use units::limits::{BLOCKS, GENERATOR_KW};

impl<T: Tariff, K: Key> Book<T, K> {
    /// Station `t` becomes `station`, a settled one, with the charges that the pages give, and its generators get their shares.
    fn post(&mut self, pages: &mut Pages, t: usize, mut station: Station)
        requires changes { Changes self.old.stations.items t self.old.cash station self.old.cash }
        requires settled { is_settled station.stage.phase ≡ true }
        ensures after { state self.new pages.new ≡ posted t station (state self.old pages.old) }
        ensures tariff { self.new.tariff ≡ self.old.tariff }
        ensures key { self.new.key ≡ self.old.key }
    {
        let charges = post(
            &self.tariff,
            &self.key,
            t as u8,
            station.plant.members,
            pages,
        );
        station.balance.settle(charges);
        self.stations[t] = station;
    }

    /// The charges and shares of station `t` are posted.
    pub fn settle(&mut self, pages: &mut Pages, t: u64) -> Result<(), Fault>
        ensures { Makes (settling t) self.old pages.old self.new pages.new result }
    {
        let station = self.admit(pages, t, Head::Settle)?;
        complete(&pages.readings, station.plant.members, None)?;
        self.post(pages, t as usize, station);
        Ok(())
    }

    /// A reading is replaced, and the charges and shares of its station follow.
    pub fn correct(
        &mut self,
        pages: &mut Pages,
        generator: u64,
        block: u64,
        kw: u64,
    ) -> Result<(), Fault>
        ensures { Makes (correcting generator block kw) self.old pages.old self.new pages.new result }
    {
        let (t, station) = self.admit_generator(pages, generator, Head::Correct)?;
        let kw = in_blocks(block, block, GENERATOR_KW, kw)?;
        let place = Place {
            generator: generator as usize,
            block: block as usize,
        };
        complete(&pages.readings, station.plant.members, Some(place))?;
        pages.readings[BLOCKS * place.generator + place.block] = Some(kw);
        self.post(pages, t, station);
        Ok(())
    }
}
