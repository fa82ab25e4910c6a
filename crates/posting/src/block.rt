//! A station in one block.
ghost use Rattle.std.specs.Prelude.{◌≡◌, ℕ, length, slice_index_or};
ghost use Rattle.posting.specs.Amounts.{amounts_at, BlockSized, no_amounts};
ghost use Rattle.posting.specs.Days.{day_weighed, FairAt, figures_at, share_at, the_day, weights_at};
ghost use Rattle.posting.specs.Sheets.{loads_at, query_of, sheet_of};
ghost use Rattle.share.specs.Amounts.{listed};
ghost use Rattle.share.specs.Held.{held};
ghost use Rattle.share.specs.Loads.{loads};
ghost use Rattle.share.specs.Shares.{shares};
ghost use Rattle.share.specs.declared.load.Load.{Load};
ghost use Rattle.tariff.specs.Charges.{deviation_of};
ghost use Rattle.tariff.specs.Ranges.{IsInRange};

use crate::amounts::{Amounts, GeneratorAmounts};
use crate::day::Day;
use arrayvec::ArrayVec;
use share::generator::Generator;
use share::generators::Generators;
use share::key::Key;
use share::weights::Weights;
use tariff::query::Query;
use tariff::tariff::{Tariff, sized_charge};
use units::limits::{GENERATORS, STATION_KW};

/// What a station owes for a block and by how much it deviates from its schedule, and each generator's share of the two, in their order.
#[derive(Clone, Copy)]
pub struct BlockShares {
    pub figures: Amounts,
    pub each: GeneratorAmounts,
}

impl BlockShares {
    /// What each generator gets of a block's figures, by its weight.
    fn new(figures: Amounts, weights: &Weights) -> BlockShares
        ensures figures { result.figures ≡ figures }
        ensures count { length (listed result.each) ≡ length (held weights.now) }
        ensures each { (k : ℕ) → slice_index_or (listed result.each) k no_amounts
            ≡ amounts_at (shares figures.money (held weights.now))
            (shares figures.energy (held weights.now)) k }
    {
        let each = weights.split_amounts(figures);
        BlockShares {
            figures,
            each: GeneratorAmounts::of(&each),
        }
    }
}

impl<T: Tariff, K> Day<'_, T, K> {
    /// Puts the station's generators in a block into `all`, in the place of what it held.
    fn gather(&self, block: u8, all: &mut ArrayVec<Generator, GENERATORS>)
        ensures { loads all.new.items ≡ loads_at (sheet_of self.now.pages.now) self.now.members block }
    {
        all.clear();
        for generator in self.members.numbers() {
            all.push(self.pages.generator_at(generator, block));
        }
    }

    /// What the tariff is asked in a block.
    fn query(&self, block: u8, generators: &Generators) -> Query
        ensures value { result ≡ query_of self.now.pages.now.schedules.items self.now.station block (loads generators.now.each.now) }
        ensures in_range { IsInRange result }
    {
        let load = generators.load();
        Query {
            station: self.station,
            block,
            schedule: self.pages.schedule_at(self.station, block),
            actual: load.actual,
            capacity: load.capacity,
        }
    }

    /// The charge by the tariff, and the deviation.
    fn figures_of(&self, block: u8, generators: &Generators) -> Amounts
        ensures money { result.money ≡ T.Tariff.charge_of self.now.tariff.now (query_of self.now.pages.now.schedules.items self.now.station block (loads generators.now.each.now)) }
        ensures energy { result.energy ≡ deviation_of (query_of self.now.pages.now.schedules.items self.now.station block (loads generators.now.each.now)) }
        ensures sized { BlockSized result }
    {
        let query = self.query(block, generators);
        Amounts {
            money: sized_charge(self.tariff, query),
            energy: query.deviation(),
        }
    }

    /// The charge and the deviation of the station in a block. They depend on no key, so any type
    /// may stand for it.
    pub fn figures(&self, block: u8) -> Amounts
        ensures value { (weighs : Load → Load → ℕ)
            → result ≡ figures_at (day_weighed T.Tariff weighs self.now) block }
        ensures sized { BlockSized result }
    {
        let mut all = ArrayVec::new();
        self.gather(block, &mut all);
        let generators = Generators::of(&all).unwrap();
        self.figures_of(block, &generators)
    }
}

impl<T: Tariff, K: Key> Day<'_, T, K> {
    /// The charge and the deviation of the station in a block, and the weights that split them.
    /// Its generators are put into `all` and the weights into `room`, so that two lists can serve
    /// all blocks.
    pub(crate) fn weighed<'r>(
        &self,
        block: u8,
        all: &mut ArrayVec<Generator, GENERATORS>,
        room: &'r mut ArrayVec<u64, GENERATORS>,
    ) -> (Amounts, Weights<'r>)
        ensures figures { result.0 ≡ figures_at (the_day T.Tariff K.Key self.now) block }
        ensures weights { held result.1 ≡ weights_at (the_day T.Tariff K.Key self.now) block }
        ensures sized { BlockSized result.0 }
    {
        self.gather(block, all);
        let generators = Generators::of(all.as_slice()).unwrap();
        let figures = self.figures_of(block, &generators);
        (figures, Weights::of(self.key, &generators, room))
    }

    /// The charge and the deviation of the station in a block, and what each generator gets of them.
    pub fn shares(&self, block: u8) -> BlockShares
        ensures figures { result.figures ≡ figures_at (the_day T.Tariff K.Key self.now) block }
        ensures count { length (listed result.each) ≡ self.now.members.count }
        ensures each { (k : ℕ) → slice_index_or (listed result.each) k no_amounts
            ≡ share_at (the_day T.Tariff K.Key self.now) k block }
        ensures fair { FairAt (the_day T.Tariff K.Key self.now) block }
        ensures sized { BlockSized result.figures }
    {
        let mut all = ArrayVec::new();
        let mut room = ArrayVec::new();
        let (figures, weights) = self.weighed(block, &mut all, &mut room);
        BlockShares::new(figures, &weights)
    }
}
