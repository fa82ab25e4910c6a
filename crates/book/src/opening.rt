//! Checks on an opening, and the stations that it lays.
ghost use Rattle.std.specs.Prelude.{◌≡◌, ◌<◌, ◌≤◌, map, length, position, zip};
ghost use Rattle.book.specs.Opening.{bad_installed, bad_stations, generators_in, Installable, installed_count_fault, kind_of, opened_stations, outside, sound_station, Stands, station_count_fault, unsound, view_of, view_opened};
ghost use Rattle.units.specs.Refusals.{Checks};
ghost use Rattle.posting.specs.Members.{Numbered};
ghost use Rattle.units.specs.declared.limits.TheConstants.{ALL_GENERATORS};

use crate::station::Station;
use arrayvec::ArrayVec;
use posting::members::Members;
use units::fault::Fault;
use units::limits::{GENERATORS, LEAST_INSTALLED, MOST_INSTALLED, STATIONS};
use units::station::Kind;

/// There are stations, but not too many, and as many counts as kinds.
pub fn station_count(kinds: usize, counts: usize) -> Result<(), Fault>
    ensures { Checks (station_count_fault kinds counts) (λ _. (0 < kinds) × (kinds ≤ STATIONS) × (counts ≡ kinds)) result }
{
    if !(1..=STATIONS).contains(&kinds) || counts != kinds {
        return Err(Fault::StationCount {
            kinds: kinds as u64,
            counts: counts as u64,
        });
    }
    Ok(())
}

/// A wind or a solar station with some generators, but not too many.
fn is_sound(kind: u64, count: u64) -> bool
    ensures { result ≡ sound_station kind count }
{
    Kind::try_from(kind).is_ok() && (1..=GENERATORS as u64).contains(&count)
}

/// The first station that is not sound.
fn first_unsound(kinds: &[u64], counts: &[u64]) -> Option<usize>
    ensures { result ≡ position unsound (zip kinds.now counts.now) }
{
    kinds
        .iter()
        .zip(counts)
        .position(|(kind, count)| !is_sound(*kind, *count))
}

/// The generators of all stations.
#[tactic(auto, unfolding(crate::specs::Opening::generators_in))]
fn total(counts: &[u64]) -> usize
    requires { generators_in counts.now ≤ ALL_GENERATORS }
    ensures { result ≡ generators_in counts.now }
{
    counts.iter().sum::<u64>() as usize
}

/// Each station is sound: the number of their generators.
pub fn sound_stations(kinds: &[u64], counts: &[u64]) -> Result<usize, Fault>
    requires few { length kinds.now ≤ STATIONS }
    requires same { length counts.now ≡ length kinds.now }
    ensures { Checks (bad_stations kinds.now counts.now) (λ n. (n ≡ generators_in counts.now) × (n ≤ ALL_GENERATORS)) result }
{
    match first_unsound(kinds, counts) {
        Some(t) => Err(Fault::BadStation { station: t as u64 }),
        None => Ok(total(counts)),
    }
}

/// There are as many installed powers as generators.
pub fn installed_count(given: usize, needed: usize) -> Result<(), Fault>
    ensures { Checks (installed_count_fault given needed) (λ _. given ≡ needed) result }
{
    if given != needed {
        return Err(Fault::InstalledCount {
            given: given as u64,
            needed: needed as u64,
        });
    }
    Ok(())
}

/// An installed power that no generator may have.
fn is_outside(kw: u64) -> bool
    ensures { result ≡ outside kw }
{
    !(u64::from(LEAST_INSTALLED)..=u64::from(MOST_INSTALLED)).contains(&kw)
}

/// The first such power.
fn first_outside(installed: &[u64]) -> Option<usize>
    ensures { result ≡ position outside installed.now }
{
    installed.iter().position(|kw| is_outside(*kw))
}

/// Each installed power is one that a generator may have.
pub fn installed_range(installed: &[u64]) -> Result<(), Fault>
    ensures { Checks (bad_installed installed.now) (λ _. Installable installed.now) result }
{
    match first_outside(installed) {
        Some(g) => Err(Fault::InstalledRange {
            generator: g as u64,
            kw: installed[g],
        }),
        None => Ok(()),
    }
}

/// The kind of a sound station.
fn kind_numbered(number: u64) -> Kind
    requires { number ≤ 1 }
    ensures { result ≡ kind_of number }
{
    Kind::try_from(number).unwrap()
}

/// A station as its day begins, with `count` generators from number `first` on.
fn opened_station(first: usize, kind: Kind, count: usize) -> Station
    requires { Numbered first count }
    ensures { view_of result ≡ view_opened first kind count }
{
    Station::new(kind, Members::of(first, count).unwrap())
}

/// A station for each kind and count; its generators follow those of the stations before.
pub fn lay_stations(kinds: &[u64], counts: &[u64]) -> ArrayVec<Station, STATIONS>
    requires { Stands kinds.now counts.now }
    ensures { map view_of result.items ≡ opened_stations 0 kinds.now counts.now }
{
    let mut stations = ArrayVec::new();
    let mut first = 0;
    for (kind, count) in kinds.iter().zip(counts) {
        let count = *count as usize;
        stations.push(opened_station(first, kind_numbered(*kind), count));
        first += count;
    }
    stations
}
