ghost use Rattle.std.specs.Prelude.{◌≡◌, ◌<◌, ◌≤◌, ◌↔◌, IsOk, MatchResult};
ghost use Rattle.tariff.specs.Rates.{larger_rate, rate_refused, single};
ghost use Rattle.units.specs.Refusals.{Checks};
ghost use Rattle.units.specs.declared.fault.Fault.TheVariants.{HighRate};
ghost use Rattle.units.specs.declared.limits.TheConstants.{HIGHEST_RATE};
ghost use Rattle.tariff.specs.RatesLemmas.{rates_bounded};
ghost use Rattle.tariff.specs.Charges.{deviation_of};
ghost use Rattle.std.proofs.Common.{rules};

use crate::query::Query;
use crate::tariff::Tariff;
use units::fault::Fault;
use units::limits::HIGHEST_RATE;

/// One rate below the schedule and one above it, whatever the capacity.
#[derive(Clone, Copy)]
pub struct SingleRate {
    /// What a shortfall costs, in paise for a kWh.
    export: u32,
    /// What a surplus earns at 90 percent, in paise for a kWh.
    domestic: u32,
    ghost low_export: { export ≤ HIGHEST_RATE },
    ghost low_domestic: { domestic ≤ HIGHEST_RATE },
}

/// Refuses a rate above 4,000.
fn checked_rate(rate: u32) -> Result<(), Fault>
    ensures { MatchResult result (λ _. rate ≤ HIGHEST_RATE) (λ e. (HIGHEST_RATE < rate) × (e ≡ HighRate rate)) }
{
    if rate > HIGHEST_RATE {
        return Err(Fault::HighRate {
            rate: u64::from(rate),
        });
    }
    Ok(())
}

impl SingleRate {
    /// A tariff of two rates, or the first of them that is above 4,000.
    pub fn new(export: u32, domestic: u32) -> Result<SingleRate, Fault>
        ensures limits { IsOk result ↔ ((export ≤ HIGHEST_RATE) × (domestic ≤ HIGHEST_RATE)) }
        ensures value { Checks (rate_refused export domestic)
            (λ t. (t.export ≡ export) × (t.domestic ≡ domestic)) result }
    {
        checked_rate(export)?;
        checked_rate(domestic)?;
        Ok(SingleRate { export, domestic })
    }
}

impl Tariff for SingleRate {
    ghost charge_of = { λ t q. single t.export t.domestic q };

    ghost ceiling_of = { λ t. larger_rate t.export t.domestic };

    ghost code_of = { λ _. 40 };

    ghost settled = { Prim.search rules };

    ghost bounded = { λ t q _. rates_bounded t.export t.domestic (deviation_of q) };

    ghost capped = { Prim.search rules };

    ghost numbered = { Prim.search rules };

    fn charge(&self, query: Query) -> i64 {
        let magnitude = query.magnitude();
        if query.deviation() < 0 {
            ((u64::from(self.export) * magnitude + 2) / 4) as i64
        } else {
            -(((90 * u64::from(self.domestic) * magnitude + 200) / 400) as i64)
        }
    }

    fn ceiling(&self) -> u32 {
        ((self.export + 3) / 4).max((9 * self.domestic + 39) / 40)
    }

    fn code(&self) -> u8 {
        40
    }
}
