//! A station's statement.
ghost use Rattle.std.specs.Prelude.{◌≤◌, length};
ghost use Rattle.units.specs.declared.limits.TheConstants.{GENERATORS};

use crate::figures::{GeneratorLine, StationLine};

mod text;

/// The least page that a statement is written to.
pub const STATEMENT_PAGE: usize = 4096;

/// The figures of a station and of its generators, of which there are at most `GENERATORS`.
#[derive(Drop)]
pub struct Statement<'a> {
    pub station: StationLine,
    pub generators: &'a [GeneratorLine],
    ghost few: { length generators.now ≤ GENERATORS },
}
