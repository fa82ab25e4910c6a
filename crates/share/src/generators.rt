//! The generators of a station in one block.
mod totals;

ghost use Rattle.share.specs.Keys.{totals};
ghost use Rattle.share.specs.Loads.{loads};
ghost use Rattle.std.specs.Prelude.{◌≡◌, ◌<◌, ◌≤◌, length};
ghost use Rattle.units.specs.declared.limits.TheConstants.{GENERATORS};

use crate::generator::Generator;
use crate::load::Load;

/// The generators of a station in one block: 1 to 32.
#[derive(Clone, Copy)]
pub struct Generators<'a> {
    each: &'a [Generator],
    load: Load,
    ghost some: { 0 < length each.now },
    ghost few: { length each.now ≤ GENERATORS },
    ghost whole: { load ≡ totals (loads each.now) },
}
