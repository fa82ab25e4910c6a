//! A key that keeps its laws for all power that a station can have, and not beyond.
ghost use Rattle.rule_tests.specs.Square.{by_square};
ghost use Rattle.rule_tests.specs.SquareLemmas.{square_alive, square_bounded};

use share::key::Key;
use share::load::Load;
use units::limits::STATION_KW;

/// By the square of the installed power, in units of 6,400,000 kW, rounded up.
#[derive(Clone, Copy)]
pub struct SquareKey;

impl Key for SquareKey {
    ghost weighs = { by_square };

    ghost bounded = { square_bounded };

    ghost alive = { square_alive };

    fn weight(&self, own: &Load, _station: &Load) -> u32 {
        let installed = u64::from(own.installed);
        let units = (installed * installed).div_ceil(u64::from(STATION_KW));
        units.min(u64::from(u32::MAX)) as u32
    }
}
