//! Weights by a key, or as they are given.
ghost use Rattle.share.specs.Held.{held};
ghost use Rattle.share.specs.Keys.{weights};
ghost use Rattle.share.specs.Loads.{loads};
ghost use Rattle.share.specs.Shares.{AreWeights};
ghost use Rattle.std.specs.Prelude.{◌≡◌, ◌^◌, ◌≤◌, MatchOption, sum};

use crate::generator::Generator;
use crate::generators::Generators;
use crate::key::Key;
use crate::load::Load;
use crate::quotient::inverse_of;
use crate::weights::Weights;
use arrayvec::ArrayVec;
use units::limits::{GENERATORS, STATION_KW};

/// The weight that a key gives one generator.
fn weight_of<K: Key>(key: &K, generator: &Generator, station: &Load) -> u32
    ensures { result ≡ K.Key.weighs generator.now.load station.now }
{
    key.weight(&generator.load(), station)
}

/// The weights added. `None` if they come to 2^64 or more.
fn total_of(each: &[u64]) -> Option<u64>
    ensures { MatchOption result (2 ^ 64 ≤ sum each.now) (λ total. total ≡ sum each.now) }
{
    let mut total: u64 = 0;
    for &weight in each {
        total = total.checked_add(weight)?;
    }
    Some(total)
}

impl<'a> Weights<'a> {
    /// These weights, in their order (docs/RULES.md, "Keys and shares").
    /// `None` if there are more than 32, or if they add up to nothing or to 2^64 or more.
    pub fn given(each: &'a [u64]) -> Option<Weights<'a>>
        ensures { MatchOption result (AreWeights each.now → ⊥)
            (λ w. AreWeights each.now × (held w ≡ each.now)) }
    {
        if each.len() > GENERATORS {
            return None;
        }
        let total = total_of(each)?;
        if total == 0 {
            return None;
        }
        Some(Weights {
            each,
            total,
            inverse: inverse_of(total),
        })
    }

    /// The weight that the key gives each generator, in their order: together at most 6,400,000, the
    /// most kW that a station has (docs/RULES.md, "Keys and shares").
    /// They are put into `room`, in the place of what it held, so that one list can serve many times.
    pub fn of<K: Key>(
        key: &K,
        generators: &Generators,
        room: &'a mut ArrayVec<u64, GENERATORS>,
    ) -> Weights<'a>
        ensures value { held result ≡ weights K.Key.weighs (loads generators.now.each.now) }
        ensures small { sum (held result) ≤ STATION_KW }
    {
        let station = generators.load();
        room.clear();
        let mut total = 0;
        for generator in generators.each() {
            let weight = u64::from(weight_of(key, generator, &station));
            room.push(weight);
            total += weight;
        }
        Weights {
            each: room.as_slice(),
            total,
            inverse: inverse_of(total),
        }
    }
}
