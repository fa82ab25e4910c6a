//! The book: its tariff and key, its stations and the pool's cash.
mod admission;
mod filing;
mod generators;
mod money;
mod open;
mod posting_calls;
mod questions;
mod runs;

ghost use Rattle.std.specs.Prelude.{◌≡◌, ◌<◌, ◌≤◌, All, pos, ◌+ℤ◌};
ghost use Rattle.arrayvec.specs.ArrayVec.{array_vec_len};
ghost use Rattle.book.specs.Sound.{generators_of, IsSound, Laid, nets};
ghost use Rattle.units.specs.declared.limits.TheConstants.{ALL_GENERATORS, MOST_CASH, STATIONS};

use crate::station::Station;
use arrayvec::ArrayVec;
use share::key::Key;
use tariff::tariff::Tariff;
use units::limits::STATIONS;

/// One settlement day. Cash is what was paid less what was drawn, and no station's draws run
/// further ahead of its payments than its largest receivable, so no sum leaves its range.
#[derive(Drop)]
pub struct Book<T: Tariff, K: Key> {
    tariff: T,
    key: K,
    stations: ArrayVec<Station, STATIONS>,
    generators: usize,
    cash: u64,
    ghost few: { (0 < array_vec_len stations) × (array_vec_len stations ≤ STATIONS) },
    ghost most: { generators ≤ ALL_GENERATORS },
    ghost all: { generators_of stations.items ≡ generators },
    ghost laid: { Laid stations.items },
    ghost low: { cash ≤ MOST_CASH },
    ghost even: { nets stations.items +ℤ pos cash ≡ pos 0 },
    ghost sound: { All IsSound stations.items },
}
