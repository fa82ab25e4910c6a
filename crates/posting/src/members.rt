//! The generators of a station, by their numbers.
mod numbers;

ghost use Rattle.std.specs.Prelude.{◌<◌, ◌≤◌};
ghost use Rattle.units.specs.declared.limits.TheConstants.{GENERATORS, MOST_BEFORE};

/// The generators of a station: `count` of them from number `first` on, numbered through all stations.
#[derive(Clone, Copy)]
pub struct Members {
    first: usize,
    count: usize,
    ghost low: { first ≤ MOST_BEFORE },
    ghost some: { 0 < count },
    ghost few: { count ≤ GENERATORS },
}
