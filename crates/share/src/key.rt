//! How a station's amounts are split: a key gives each generator a weight.
ghost use Rattle.std.specs.Prelude.{◌≡◌, ℕ};
ghost use Rattle.share.specs.Keys.{NeverAboveLargest, NeverVanish, by_capacity, by_units};
ghost use Rattle.share.specs.declared.load.Load.{Load};
ghost use Rattle.share.specs.Alive.{units_never_vanish, capacity_never_vanishes};
ghost use Rattle.std.proofs.Common.{rules};

use crate::load::Load;

/// A weight for a generator, from its own three numbers and the station's three totals alone, in kW
/// (docs/RULES.md, "Keys and shares").
pub trait Key {
    ghost weighs: { Load → Load → ℕ };

    fn weight(&self, own: &Load, station: &Load) -> u32
        ensures { result ≡ weighs own.now station.now };

    // The laws speak of numbers and totals up to STATION_KW: more, a station never has.

    // A weight is at most the largest of the generator's own numbers.
    ghost bounded: { NeverAboveLargest weighs };

    // Over one generator or more, each with some power installed, the weights do not all vanish.
    ghost alive: { NeverVanish weighs };
}

/// By the actual; as the capacity key where the station's actual is zero.
#[derive(Clone, Copy)]
pub struct UnitsKey;

impl Key for UnitsKey {
    ghost weighs = { by_units };

    ghost bounded = { Prim.search rules };

    ghost alive = { units_never_vanish };

    fn weight(&self, own: &Load, station: &Load) -> u32 {
        if station.actual > 0 {
            own.actual
        } else {
            CapacityKey.weight(own, station)
        }
    }
}

/// By capacity; by what is installed where the station's capacity is zero.
#[derive(Clone, Copy)]
pub struct CapacityKey;

impl Key for CapacityKey {
    ghost weighs = { by_capacity };

    ghost bounded = { Prim.search rules };

    ghost alive = { capacity_never_vanishes };

    fn weight(&self, own: &Load, station: &Load) -> u32 {
        if station.capacity > 0 {
            own.capacity
        } else {
            own.installed
        }
    }
}
