//! A tariff that promises its ceiling for the queries in range alone.
ghost use Rattle.rule_tests.specs.Proportions.{proportional, proportional_bounded};
ghost use Rattle.std.proofs.Common.{rules};

use tariff::query::Query;
use tariff::tariff::Tariff;
use units::limits::STATION_KW;

/// A paisa for each kW of deviation at the largest capacity that a station can have, and in proportion below it.
/// At a capacity above that, a kW costs more than the ceiling.
#[derive(Drop)]
pub struct Proportional;

impl Tariff for Proportional {
    ghost charge_of = { λ _. proportional };

    ghost ceiling_of = { λ _. 1 };

    ghost code_of = { λ _. 50 };

    ghost settled = { Prim.search rules };

    ghost bounded = { λ _. proportional_bounded };

    ghost capped = { Prim.search rules };

    ghost numbered = { Prim.search rules };

    fn charge(&self, query: Query) -> i64 {
        (query.magnitude() * u64::from(query.capacity) / u64::from(STATION_KW)) as i64
    }

    fn ceiling(&self) -> u32 {
        1
    }

    fn code(&self) -> u8 {
        50
    }
}
