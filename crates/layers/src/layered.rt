//! What a caller learns of a layered tariff.
ghost use Rattle.std.specs.Prelude.{◌≡◌, IfOk};
ghost use Rattle.tariff.specs.Bands.{banded_charge};
ghost use Rattle.layers.specs.Layered.{Layered};
ghost use Rattle.layers.specs.Penalties.{penal, penalty_refused};
ghost use Rattle.layers.specs.Waivers.{waived};
ghost use Rattle.units.specs.Refusals.{Checks};

use crate::penalty::Penalty;
use crate::waiver::Waiver;
use tariff::banded::{BANDED_CEILING, Banded};
use tariff::query::Query;
use tariff::tariff::Tariff;
use units::bits::BitSet;
use units::fault::Fault;
use units::limits::BLOCKS;

/// The charge of a waiver over a penalty over bands, or why there is no such penalty.
pub fn layered_charge(
    bands: Banded,
    station: u8,
    due: [Option<u32>; BLOCKS],
    disturbed: BitSet,
    query: Query,
) -> Result<i64, Fault>
    ensures rules { IfOk result (λ z. Layered disturbed.bits station due (banded_charge bands) query z) }
    ensures value { let penalised = penal BANDED_CEILING station due (banded_charge bands) in
        Checks (penalty_refused BANDED_CEILING due)
        (λ charge. charge ≡ waived disturbed.bits penalised query) result }
{
    let penalty = Penalty::new(bands, station, due)?;
    Ok(Waiver::new(penalty, disturbed).charge(query))
}
