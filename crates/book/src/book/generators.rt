//! Calls on capacities and readings.
ghost use Rattle.book.specs.Calls.{declaring, Makes, metering};

use super::Book;
use crate::checks::in_blocks;
use crate::pages::entries;
use posting::pages::Pages;
use share::key::Key;
use tariff::tariff::Tariff;
use units::fault::Fault;
use units::head::Head;
use units::limits::GENERATOR_KW;

impl<T: Tariff, K: Key> Book<T, K> {
    /// A capacity is declared for the generator, in the blocks `from` to `to`.
    pub fn declare(
        &mut self,
        pages: &mut Pages,
        generator: u64,
        from: u64,
        to: u64,
        kw: u64,
    ) -> Result<(), Fault>
        ensures { Makes (declaring generator from to kw) self.old pages.old self.new pages.new result }
    {
        self.admit_generator(pages, generator, Head::Declare)?;
        let kw = in_blocks(from, to, pages.installed(generator as usize), kw)?;
        pages.capacities[entries(generator, from, to)].fill(kw);
        Ok(())
    }

    /// The generator's meter is read for the blocks `from` to `to`.
    pub fn read(
        &mut self,
        pages: &mut Pages,
        generator: u64,
        from: u64,
        to: u64,
        kw: u64,
    ) -> Result<(), Fault>
        ensures { Makes (metering generator from to kw) self.old pages.old self.new pages.new result }
    {
        self.admit_generator(pages, generator, Head::Read)?;
        let kw = in_blocks(from, to, GENERATOR_KW, kw)?;
        pages.readings[entries(generator, from, to)].fill(Some(kw));
        Ok(())
    }
}
