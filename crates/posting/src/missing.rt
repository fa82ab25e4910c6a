//! The first reading that a day lacks.
ghost use Rattle.std.specs.Prelude.{◌≡◌, ◌<◌};
ghost use Rattle.posting.specs.Missing.{first_missing_of, FirstMissing, missing_at, missing_in};

use crate::members::Members;
use crate::pages::entry_or;
use crate::place::Place;
use units::limits::{ALL_GENERATORS, BLOCKS};

/// Whether a reading is needed and is not on the page.
fn is_missing(readings: &[Option<u32>], except: Option<Place>, place: Place) -> bool
    requires generator { place.generator < ALL_GENERATORS }
    requires block { place.block < 256 }
    ensures { result ≡ missing_at readings.now except place.generator place.block }
{
    let at = BLOCKS * place.generator + place.block;
    entry_or(readings, at, None).is_none() && except != Some(place)
}

/// The first block in which a station's reading is missing, and in it the first such generator.
/// A correction replaces the reading at `except`, and so does not need it.
pub fn first_missing(
    readings: &[Option<u32>],
    members: Members,
    except: Option<Place>,
) -> Option<Place>
    ensures value { result ≡ first_missing_of readings.now except members }
    ensures first { FirstMissing readings.now except members result }
{
    let mut missing = None;
    'blocks: for block in 0..BLOCKS {
        for generator in members.numbers() {
            let place = Place { generator, block };
            if is_missing(readings, except, place) {
                missing = Some(place);
                break 'blocks;
            }
        }
    }
    missing
}

/// The first of a station's generators whose reading is missing in the block.
pub fn missing_in_block(
    readings: &[Option<u32>],
    members: Members,
    except: Option<Place>,
    block: u8,
) -> Option<Place>
    ensures { result ≡ missing_in readings.now except block members.first members.count }
{
    let block = usize::from(block);
    members
        .numbers()
        .map(|generator| Place { generator, block })
        .find(|place| is_missing(readings, except, *place))
}
