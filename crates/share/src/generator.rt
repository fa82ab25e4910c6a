//! A generator in one block.
mod nearest;

ghost use Rattle.std.specs.Prelude.{◌≤◌};
ghost use Rattle.units.specs.declared.limits.TheConstants.{GENERATOR_KW, LEAST_INSTALLED, MOST_INSTALLED};

use crate::load::Load;

/// A generator in one block: its numbers always lie in their ranges.
#[derive(Clone, Copy)]
pub struct Generator {
    load: Load,
    ghost least: { LEAST_INSTALLED ≤ load.installed },
    ghost most: { load.installed ≤ MOST_INSTALLED },
    ghost able: { load.capacity ≤ load.installed },
    ghost metered: { load.actual ≤ GENERATOR_KW },
}
