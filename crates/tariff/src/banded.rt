ghost use Rattle.std.specs.Prelude.{◌≡◌, ◌*◌, ◌≤◌};
ghost use Rattle.tariff.specs.Bands.{banded_charge, code_of_bands, edges_of, charge_in_bands};
ghost use Rattle.tariff.specs.Charges.{between};
ghost use Rattle.tariff.specs.Table.{Tabled};
ghost use Rattle.std.proofs.Common.{rules};

use crate::query::Query;
use crate::tariff::Tariff;

/// What a kWh of deviation costs in the three bands, in paise.
const LOW_RATE: u64 = 50;

const MIDDLE_RATE: u64 = 100;

const HIGH_RATE: u64 = 150;

/// The ceiling of the banded tariffs: a kW of a block is a quarter of a kWh, at the highest rate, rounded up.
pub const BANDED_CEILING: u32 = (HIGH_RATE as u32 + 3) / 4;

/// Where the three bands of deviation begin, in percent of the capacity.
#[derive(Clone, Copy)]
pub struct Edges {
    pub first: u32,
    pub second: u32,
    pub third: u32,
}

/// Bands of deviation, as shares of the capacity, each with a rate above that of the band below.
#[derive(Clone, Copy)]
pub enum Banded {
    /// Free up to 10 percent, with edges at 20 and 30.
    From10,
    /// Free up to 15 percent, with edges at 25 and 35.
    From15,
}

impl Banded {
    /// The percentages of the capacity at which the bands begin.
    pub fn edges(&self) -> Edges
        ensures { result ≡ edges_of self.now }
    {
        match self {
            Banded::From10 => Edges {
                first: 10,
                second: 20,
                third: 30,
            },
            Banded::From15 => Edges {
                first: 15,
                second: 25,
                third: 35,
            },
        }
    }
}

/// The part of `amount` that lies above `low` and up to `high`.
fn part(amount: u64, low: u64, high: u64) -> u64
    ensures { result ≡ between amount low high }
{
    amount.min(high).saturating_sub(low)
}

/// The charge for an error, in hundredths of a kW: what of it lies in each band, at that band's rate.
fn in_bands(edges: Edges, capacity: u32, error: u64) -> u64
    requires { error ≤ 100 * u32.MAX }
    ensures value { result ≡ charge_in_bands edges capacity error }
    ensures bound { result ≤ error }
{
    let first = u64::from(edges.first) * u64::from(capacity);
    let second = u64::from(edges.second) * u64::from(capacity);
    let third = u64::from(edges.third) * u64::from(capacity);
    let low = LOW_RATE * part(error, first, second);
    let middle = MIDDLE_RATE * part(error, second, third);
    let high = HIGH_RATE * error.saturating_sub(third);
    // Four blocks are an hour: 400 hundredths of a kW in a block are a kWh. A half is rounded up.
    (low + middle + high + 200) / 400
}

impl Tariff for Banded {
    ghost charge_of = { banded_charge };

    ghost ceiling_of = { λ _. 38 };

    ghost code_of = { code_of_bands };

    ghost settled = { Prim.search rules };

    ghost bounded = { Prim.search rules };

    ghost capped = { Prim.search rules };

    ghost numbered = { Prim.search rules };

    fn charge(&self, query: Query) -> i64 {
        in_bands(self.edges(), query.capacity, 100 * query.magnitude()) as i64
    }

    fn ceiling(&self) -> u32 {
        BANDED_CEILING
    }

    fn code(&self) -> u8 {
        match self {
            Banded::From10 => 10,
            Banded::From15 => 15,
        }
    }
}

/// The parts of an error that lie in the bands come to what its one row charges. There is nothing to run.
fn bands_follow_the_table(tariff: Banded, query: Query)
    ensures { Tabled (edges_of tariff) query (banded_charge tariff query) }
{}

/// The charge, with what the table says of it: it is that of the one row into which the error falls.
pub fn charge_by_table(tariff: Banded, query: Query) -> i64
    ensures value { result ≡ banded_charge tariff query }
    ensures table { Tabled (edges_of tariff) query result }
{
    bands_follow_the_table(tariff, query);
    tariff.charge(query)
}
