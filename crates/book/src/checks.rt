//! Checks on the numbers of a call.
ghost use Rattle.std.specs.Prelude.{◌≡◌, ◌<◌, ◌≤◌, [], ◌∷◌, length, None};
ghost use Rattle.book.specs.Calls.{missing_reading};
ghost use Rattle.book.specs.Causes.{bad_amount, bad_blocks, high_value, high_values, value_count};
ghost use Rattle.units.specs.Refusals.{Checks, first};
ghost use Rattle.posting.specs.Missing.{first_missing_of, missing_in};

use arrayvec::ArrayVec;
use posting::members::Members;
use posting::missing::{first_missing, missing_in_block};
use posting::place::Place;
use units::fault::Fault;
use units::limits::{BLOCKS, MOST_AMOUNT};

/// The blocks `from` to `to` are blocks of the day, in this order.
pub fn in_day(from: u64, to: u64) -> Result<(), Fault>
    ensures { Checks (bad_blocks from to) (λ _. (from ≤ to) × (to < BLOCKS)) result }
{
    if to >= BLOCKS as u64 || from > to {
        return Err(Fault::BadBlocks { from, to });
    }
    Ok(())
}

/// The value at the position among those of a call is at most its limit.
fn at_most(position: u64, limit: u32, value: u64) -> Result<u32, Fault>
    ensures { Checks (high_value position limit value) (λ kw. (kw ≡ value) × (value ≤ limit)) result }
{
    if value > u64::from(limit) {
        return Err(Fault::HighValue {
            position,
            limit: u64::from(limit),
        });
    }
    Ok(value as u32)
}

/// A value for the blocks `from` to `to`: these are blocks of the day, and it is at most its limit.
pub fn in_blocks(from: u64, to: u64, limit: u32, value: u64) -> Result<u32, Fault>
    ensures { Checks (first (bad_blocks from to ∷ high_value 0 limit value ∷ [])) (λ kw. (from ≤ to) × (to < BLOCKS) × (kw ≡ value)) result }
{
    in_day(from, to)?;
    at_most(0, limit, value)
}

/// An amount that a station may pay or draw.
pub fn sound_amount(t: u64, amount: u64) -> Result<(), Fault>
    ensures { Checks (bad_amount t amount) (λ _. (0 < amount) × (amount ≤ MOST_AMOUNT)) result }
{
    if !(1..=MOST_AMOUNT).contains(&amount) {
        return Err(Fault::BadAmount { station: t, amount });
    }
    Ok(())
}

/// There are as many values as needed.
pub fn as_many(given: usize, needed: u64) -> Result<(), Fault>
    ensures { Checks (value_count given needed) (λ _. given ≡ needed) result }
{
    if given as u64 != needed {
        return Err(Fault::ValueCount {
            given: given as u64,
            needed,
        });
    }
    Ok(())
}

/// The values, if each is at most the limit.
pub fn all_at_most(limit: u32, values: &[u64]) -> Result<ArrayVec<u32, BLOCKS>, Fault>
    requires { length values.now ≤ BLOCKS }
    ensures { Checks (high_values limit values.now) (λ x. x.items ≡ values.now) result }
{
    let mut kept = ArrayVec::new();
    for (i, value) in values.iter().enumerate() {
        kept.push(at_most(i as u64, limit, *value)?);
    }
    Ok(kept)
}

/// No reading is missing, or the first that is.
fn none_missing(first: Option<Place>) -> Result<(), Fault>
    ensures { Checks (missing_reading first) (λ _. Unit {0}) result }
{
    match first {
        Some(place) => Err(Fault::MissingReading {
            generator: place.generator as u64,
            block: place.block as u64,
        }),
        None => Ok(()),
    }
}

/// No reading of a station's day is missing but the one at `except`.
pub fn complete(
    readings: &[Option<u32>],
    members: Members,
    except: Option<Place>,
) -> Result<(), Fault>
    ensures { Checks (missing_reading (first_missing_of readings.now except members)) (λ _. Unit {0}) result }
{
    none_missing(first_missing(readings, members, except))
}

/// The block is one of the day, and no reading of a station is missing in it.
pub fn block_read(readings: &[Option<u32>], members: Members, block: u64) -> Result<(), Fault>
    ensures { Checks (first (bad_blocks block block ∷ missing_reading (missing_in readings.now None block members.first members.count) ∷ [])) (λ _. block < BLOCKS) result }
{
    in_day(block, block)?;
    none_missing(missing_in_block(readings, members, None, block as u8))
}
