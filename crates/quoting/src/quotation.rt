//! What a block costs, and who bears it.
ghost use Rattle.quoting.specs.Layout.{generator_line, generator_lines, quotation_text, station_line};
ghost use Rattle.quoting.specs.Quotes.{asked, Quoted};
ghost use Rattle.share.specs.Amounts.{listed};
ghost use Rattle.share.specs.Loads.{loads};
ghost use Rattle.share.specs.Rules.{rules_of};
ghost use Rattle.std.specs.Fmt.{WritesOnOk};
ghost use Rattle.std.specs.Prelude.{◌≡◌, Some};

use arrayvec::ArrayVec;
use share::amounts::{Amounts, GeneratorAmounts};
use share::generators::Generators;
use share::key::Key;
use share::weights::Weights;
use std::fmt;
use tariff::query::Query;
use tariff::tariff::Tariff;

/// What a block costs a station, and what each of its generators bears.
#[derive(Clone, Copy)]
pub struct Quotation {
    /// The schedule, the actual and the capacity of the station.
    pub query: Query,
    /// The charge, positive where it is payable and negative where it is receivable, and the deviation.
    pub owed: Amounts,
    /// The share of each generator: of the charge, and of the deviation.
    pub each: GeneratorAmounts,
}

/// What the tariff is asked of.
fn query_for(schedule: u32, generators: &Generators) -> Query
    ensures { result ≡ asked schedule (loads generators.now.each.now) }
{
    let station = generators.load();
    Query {
        station: 0,
        block: 0,
        schedule,
        actual: station.actual,
        capacity: station.capacity,
    }
}

/// The quote for a schedule under any tariff and any key.
pub fn quote_for<T: Tariff, K: Key>(
    tariff: &T,
    key: &K,
    schedule: u32,
    generators: &Generators,
) -> Quotation
    ensures { Quoted (rules_of T.Tariff K.Key tariff.now) schedule generators.now.each.now result }
{
    let query = query_for(schedule, generators);
    let owed = Amounts {
        money: tariff.charge(query),
        energy: query.deviation(),
    };
    let mut room = ArrayVec::new();
    let each = Weights::of(key, generators, &mut room).split_amounts(owed);
    Quotation {
        query,
        owed,
        each: GeneratorAmounts::of(&each),
    }
}

/// The line of the generator with this number.
#[tactic(auto, using(crate::proofs::Printing::lines_written))]
fn write_generator<W: fmt::Write>(
    f: &mut fmt::Formatter<W>,
    number: usize,
    share: Amounts,
) -> fmt::Result
    ensures { WritesOnOk W.write_str_gives f.old result (generator_line (number, share)) f.new }
{
    let Amounts { money, energy } = share;
    writeln!(f, "generator {number:>6} {money:>14} {energy:>11}")
}

impl Quotation {
    #[tactic(auto, using(crate::proofs::Printing::lines_written))]
    fn write_station<W: fmt::Write>(&self, f: &mut fmt::Formatter<W>) -> fmt::Result
        ensures { WritesOnOk W.write_str_gives f.old result (station_line self.now) f.new }
    {
        let Query {
            schedule,
            actual,
            capacity,
            ..
        } = self.query;
        let deviation = self.owed.energy;
        let charge = self.owed.money;
        writeln!(
            f,
            "station   {schedule:>11} {actual:>10} {capacity:>11} {deviation:>12} {charge:>14}"
        )
    }

    #[tactic(auto, using(crate::proofs::Printing::lines_walked))]
    fn write_generators<W: fmt::Write>(&self, f: &mut fmt::Formatter<W>) -> fmt::Result
        ensures { WritesOnOk W.write_str_gives f.old result
            (generator_lines (listed self.now.each)) f.new }
    {
        for (number, &share) in self.each.as_slice().iter().enumerate() {
            write_generator(f, number, share)?;
        }
        Ok(())
    }
}

impl fmt::Display for Quotation {
    ghost output = { λ quotation. Some (quotation_text quotation) };

    fn fmt<W: fmt::Write>(&self, f: &mut fmt::Formatter<W>) -> fmt::Result {
        f.write_str("          schedule/kW  actual/kW capacity/kW deviation/kW   charge/paise\n")?;
        self.write_station(f)?;
        f.write_str("\n          number    money/paise   energy/kW\n")?;
        self.write_generators(f)
    }
}
