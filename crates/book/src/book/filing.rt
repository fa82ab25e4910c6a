//! Calls on schedules.
ghost use Rattle.book.specs.Calls.{closing, filing, issuing, Makes, revising};

use super::Book;
use crate::checks::in_blocks;
use crate::pages::entries;
use posting::pages::Pages;
use share::key::Key;
use tariff::tariff::Tariff;
use units::fault::Fault;
use units::head::Head;
use units::limits::{BLOCKS, REVISION_LEAD, STATION_KW};

impl<T: Tariff, K: Key> Book<T, K> {
    /// Station `t` files a schedule for the blocks `from` to `to`.
    pub fn file(
        &mut self,
        pages: &mut Pages,
        t: u64,
        from: u64,
        to: u64,
        kw: u64,
    ) -> Result<(), Fault>
        ensures { Makes (filing t from to kw) self.old pages.old self.new pages.new result }
    {
        self.admit(pages, t, Head::File)?;
        let kw = in_blocks(from, to, STATION_KW, kw)?;
        self.stations[t as usize].stage.file(from as u8, to as u8);
        pages.schedules[entries(t, from, to)].fill(kw);
        Ok(())
    }

    /// Station `t` issues its schedule.
    pub fn issue(&mut self, pages: &mut Pages, t: u64) -> Result<(), Fault>
        ensures { Makes (issuing t) self.old pages.old self.new pages.new result }
    {
        let station = self.admit(pages, t, Head::Issue)?;
        let block = station.stage.filed.first_absent();
        if block < BLOCKS as u32 {
            return Err(Fault::Unfiled {
                station: t,
                block: u64::from(block),
            });
        }
        self.stations[t as usize].stage = station.stage;
        Ok(())
    }

    /// Revision `number` of station `t`, with notice in block `notice`: its schedule from the third block after it on.
    pub fn revise(
        &mut self,
        pages: &mut Pages,
        t: u64,
        number: u64,
        notice: u64,
        values: &[u64],
    ) -> Result<(), Fault>
        ensures { Makes (revising t number notice values.now) self.old pages.old self.new pages.new result }
    {
        let station = self.admit(pages, t, Head::Revise)?;
        let (slot, schedule) = station.revision(number, notice, values)?;
        self.stations[t as usize].stage.revise(slot);
        let revised = entries(t, notice + REVISION_LEAD, BLOCKS as u64 - 1);
        pages.schedules[revised].copy_from_slice(&schedule);
        Ok(())
    }

    /// The day of station `t` is over.
    pub fn close(&mut self, pages: &mut Pages, t: u64) -> Result<(), Fault>
        ensures { Makes (closing t) self.old pages.old self.new pages.new result }
    {
        let station = self.admit(pages, t, Head::Close)?;
        self.stations[t as usize].stage = station.stage;
        Ok(())
    }
}
