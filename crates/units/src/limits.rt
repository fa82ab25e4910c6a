//! The limits of a settlement day. Power is whole kW averaged over a block of 15 minutes, and money whole paise.
//! A limit that follows from others is computed from them.

/// Blocks of a day, numbered from 0.
pub const BLOCKS: usize = 96;

/// Stations of a book, at most.
pub const STATIONS: usize = 16;

/// Generators of a station, at most.
pub const GENERATORS: usize = 32;

/// Generators of a book, at most.
pub const ALL_GENERATORS: usize = STATIONS * GENERATORS;

/// Generators of a book before those of a station, at most.
pub const MOST_BEFORE: usize = ALL_GENERATORS - GENERATORS;

/// The largest capacity or reading of a generator.
pub const GENERATOR_KW: u32 = 200_000;

/// The largest schedule of a station, and the largest sum over its generators.
pub const STATION_KW: u32 = GENERATORS as u32 * GENERATOR_KW;

/// The least power that a generator has installed.
pub const LEAST_INSTALLED: u32 = 1_000;

/// The most power that a generator has installed.
pub const MOST_INSTALLED: u32 = GENERATOR_KW;

/// The highest rate of a single-rate tariff, in paise for a kWh.
pub const HIGHEST_RATE: u32 = 4_000;

/// The highest ceiling of a tariff, in paise for a kW of deviation in a block.
pub const HIGHEST_CEILING: u32 = 10_000;

/// What a penalty multiplies a charge by.
pub const PENALTY_FACTOR: u32 = 3;

/// The highest ceiling of a tariff over which a penalty may stand: the penalty's is still one.
pub const HIGHEST_UNDER_PENALTY: u32 = HIGHEST_CEILING / PENALTY_FACTOR;

/// The most paise that a station is charged, or earns, for a block.
pub const BLOCK_PAISE: u64 = HIGHEST_CEILING as u64 * STATION_KW as u64;

/// The most paise that a station is charged, or earns, for a day.
pub const DAY_PAISE: u64 = BLOCKS as u64 * BLOCK_PAISE;

/// The most that one call pays or draws, in paise.
pub const MOST_AMOUNT: u64 = 1_000_000_000_000;

/// The most cash that the pool holds, in paise.
pub const MOST_CASH: u64 = 1_000_000_000_000_000;

/// A revision changes the schedule from so many blocks after its notice on.
pub const REVISION_LEAD: u64 = 3;

/// The last block in which a notice may be given: the revision then changes the last block of the day.
pub const LAST_NOTICE: u64 = BLOCKS as u64 - 1 - REVISION_LEAD;

/// The first block in which a solar station may give notice: 05:30.
pub const FIRST_SOLAR_NOTICE: u64 = 22;

/// The last block in which a solar station may give notice: it ends at 19:00.
pub const LAST_SOLAR_NOTICE: u64 = 75;

/// Blocks of a slot, in which a station may give one notice.
pub const SLOT_BLOCKS: u64 = 6;

/// Slots of a wind station.
pub const WIND_SLOTS: u64 = LAST_NOTICE / SLOT_BLOCKS + 1;

/// Slots of a solar station.
pub const SOLAR_SLOTS: u64 = (LAST_SOLAR_NOTICE - FIRST_SOLAR_NOTICE) / SLOT_BLOCKS + 1;
