//! Money and energy together.
mod listed;

ghost use Rattle.std.specs.Prelude.{◌≤◌};
ghost use Rattle.units.specs.declared.limits.TheConstants.{GENERATORS};

use units::limits::GENERATORS;

/// A charge, in paise, and the deviation that it is for, in kW; or shares of the two.
#[derive(Clone, Copy, PartialEq, Eq, Debug, Default)]
pub struct Amounts {
    pub money: i64,
    pub energy: i64,
}

/// What each of a station's generators gets, in their order. Unlike an `ArrayVec` it is copied as a
/// number is.
#[derive(Clone, Copy, PartialEq, Eq, Debug)]
pub struct GeneratorAmounts {
    each: [Amounts; GENERATORS],
    count: usize,
    ghost few: { count ≤ GENERATORS },
}
