//! Why a call is refused.
ghost use Rattle.units.specs.Faults.{page_number, refusal_of, refusal_text};
ghost use Rattle.std.specs.Prelude.{◌≡◌, Some};
ghost use Rattle.units.specs.declared.fault.Fault.TheVariants.{NoMemory};

use crate::limits::{
    GENERATORS, HIGHEST_RATE, HIGHEST_UNDER_PENALTY, LEAST_INSTALLED, MOST_AMOUNT, MOST_CASH,
    MOST_INSTALLED, STATION_KW, STATIONS,
};
use crate::station::Phase;
use std::alloc::AllocError;
use std::fmt;
use thiserror::Error;

/// A page that a caller lends with a call, by the number under which a refusal names it.
#[derive(Clone, Copy, PartialEq, Eq, Debug)]
pub enum Page {
    Schedules = 1,
    Capacities = 2,
    Readings = 3,
    Accounts = 4,
}

impl Page {
    /// The number by which a refusal names it.
    pub const fn number(self) -> u64
        ensures { result ≡ page_number self }
    {
        self as u64
    }
}

/// How a person is told of the page with this number.
fn page_name(number: u64) -> &'static str {
    match number {
        1 => "Schedules",
        2 => "Capacities",
        3 => "Readings",
        4 => "Accounts",
        _ => "of no name",
    }
}

/// A cause of refusal, with what the answer says of it. Its text tells a person what is wrong.
#[derive(Clone, Copy, Debug, Error)]
pub enum Fault {
    /// There is no memory left.
    #[error("there is no memory left")]
    NoMemory,
    /// Not 1 to 16 stations, or not as many kinds as counts.
    #[error("{kinds} kinds and {counts} counts are not those of 1 to {most} stations", most = STATIONS)]
    StationCount { kinds: u64, counts: u64 },
    /// A kind above 1, or not 1 to 32 generators.
    #[error("station {station} is of no kind, or has not 1 to {most} generators", most = GENERATORS)]
    BadStation { station: u64 },
    /// Not as many installed powers as the counts add up to.
    #[error("{given} installed powers are given for {needed} generators")]
    InstalledCount { given: u64, needed: u64 },
    /// An installed power outside 1,000 to 200,000 kW.
    #[error("generator {generator} has {kw} kW installed, which is not {least} to {most}", least = LEAST_INSTALLED, most = MOST_INSTALLED)]
    InstalledRange { generator: u64, kw: u64 },
    /// A page is too short, by its number.
    #[error("the page {name} is too short: {needed} entries are needed", name = page_name(*.page))]
    ShortPage { page: u64, needed: u64 },
    /// A rate above 4,000 paise per kWh.
    #[error("the rate {rate} is above {most} paise per kWh", most = HIGHEST_RATE)]
    HighRate { rate: u64 },
    /// A penalty over a ceiling above 3,333, or with a capacity above 6,400,000 kW.
    #[error("no penalty may stand on {value}: a ceiling is at most {ceiling}, a capacity at most {capacity} kW", ceiling = HIGHEST_UNDER_PENALTY, capacity = STATION_KW)]
    BadPenalty { value: u64 },
    /// The page for an answer or a line is too short.
    #[error("a page of {length} bytes is too short for the text")]
    ShortOutput { length: u64 },
    /// A line over 1,024 bytes.
    #[error("the line is over 1024 bytes")]
    LongLine { length: u64 },
    /// Not a form: the length of the longest start that begins some form.
    #[error("not a form behind its first {start} bytes")]
    NotForm { start: u64 },
    /// No call has this head.
    #[error("no call has this head")]
    UnknownHead,
    /// An argument is missing, surplus or of the wrong sort: its position from 1.
    #[error("argument {position} is missing, surplus or of the wrong sort")]
    BadArgument { position: u64 },
    /// No such station or generator.
    #[error("there is no station or generator {number}")]
    NoSuchNumber { number: u64 },
    /// The station takes no such call in its phase.
    #[error("station {station} takes no such call in its phase, {phase:?}")]
    WrongPhase { station: u64, phase: Phase },
    /// A block above 95, or the first after the last.
    #[error("{from} to {to} are no blocks of the day in their order")]
    BadBlocks { from: u64, to: u64 },
    /// A notice above block 92, or outside the blocks in which a solar station gives notice.
    #[error("no notice may be given in block {notice}")]
    BadNotice { notice: u64 },
    /// Not as many values as the revision has blocks.
    #[error("{given} values are given for {needed} blocks")]
    ValueCount { given: u64, needed: u64 },
    /// A value above its limit: its position from 0.
    #[error("the value at position {position} is above {limit}")]
    HighValue { position: u64, limit: u64 },
    /// Not the number of the next revision.
    #[error("revision {given} is not the next, which is {next}")]
    RevisionNumber { given: u64, next: u64 },
    /// A slot that is not later than the last revision's.
    #[error("slot {slot} is not later than the last revision's, {last}")]
    UsedSlot { slot: u64, last: u64 },
    /// A block without a schedule at issue.
    #[error("station {station} has no schedule in block {block}")]
    Unfiled { station: u64, block: u64 },
    /// A reading that the result needs is missing.
    #[error("generator {generator} has no reading in block {block}")]
    MissingReading { generator: u64, block: u64 },
    /// An amount of 0, or above 10^12 paise.
    #[error("station {station} asks for {amount} paise, which is not 1 to {most}", most = MOST_AMOUNT)]
    BadAmount { station: u64, amount: u64 },
    /// The cash would pass 10^15 paise.
    #[error("the pool's {cash} paise and what station {station} pays would pass {most}", most = MOST_CASH)]
    FullCash { station: u64, cash: u64 },
    /// A draw above minus the due.
    #[error("station {station} may draw {available} paise and no more")]
    DrawAboveDue { station: u64, available: u64 },
    /// A draw above the cash.
    #[error("the pool holds {cash} paise, less than station {station} asks for")]
    DrawAboveCash { station: u64, cash: u64 },
}

/// What an answer says of a fault: the layer that refused, the cause's number, and a place of two numbers.
#[derive(Clone, Copy, PartialEq, Eq, Debug)]
pub struct Refusal {
    pub layer: u64,
    pub number: u64,
    pub place: (u64, u64),
}

/// As an answer writes it, without a line feed.
impl fmt::Display for Refusal {
    ghost output = { λ refusal. Some (refusal_text refusal) };

    fn fmt<W: fmt::Write>(&self, f: &mut fmt::Formatter<W>) -> fmt::Result {
        let layer = self.layer;
        let number = self.number;
        let (p, q) = self.place;
        write!(f, "(no {layer} {number} {p} {q})")
    }
}

const fn refusal_at(layer: u64, number: u64, p: u64, q: u64) -> Refusal
    ensures { result ≡ record { layer = layer; number = number; place = (p, q) } }
{
    Refusal {
        layer,
        number,
        place: (p, q),
    }
}

impl Fault {
    /// The layer, number and place by which an answer names the fault.
    pub fn refusal(&self) -> Refusal
        ensures { result ≡ refusal_of self.now }
    {
        match *self {
            Fault::NoMemory => refusal_at(0, 0, 0, 0),
            Fault::StationCount { kinds, counts } => refusal_at(0, 1, kinds, counts),
            Fault::BadStation { station } => refusal_at(0, 2, station, 0),
            Fault::InstalledCount { given, needed } => refusal_at(0, 3, given, needed),
            Fault::InstalledRange { generator, kw } => refusal_at(0, 4, generator, kw),
            Fault::ShortPage { page, needed } => refusal_at(0, 5, page, needed),
            Fault::HighRate { rate } => refusal_at(0, 23, rate, 0),
            Fault::BadPenalty { value } => refusal_at(0, 24, value, 0),
            Fault::ShortOutput { length } => refusal_at(1, 6, length, 0),
            Fault::LongLine { length } => refusal_at(1, 7, length, 0),
            Fault::NotForm { start } => refusal_at(1, 8, start, 0),
            Fault::UnknownHead => refusal_at(1, 9, 0, 0),
            Fault::BadArgument { position } => refusal_at(1, 10, position, 0),
            Fault::NoSuchNumber { number } => refusal_at(2, 11, number, 0),
            Fault::WrongPhase { station, phase } => refusal_at(2, 12, station, phase.number()),
            Fault::BadBlocks { from, to } => refusal_at(2, 13, from, to),
            Fault::BadNotice { notice } => refusal_at(2, 13, notice, 0),
            Fault::ValueCount { given, needed } => refusal_at(2, 14, given, needed),
            Fault::HighValue { position, limit } => refusal_at(2, 15, position, limit),
            Fault::RevisionNumber { given, next } => refusal_at(2, 16, given, next),
            Fault::UsedSlot { slot, last } => refusal_at(2, 17, slot, last),
            Fault::Unfiled { station, block } => refusal_at(2, 18, station, block),
            Fault::MissingReading { generator, block } => refusal_at(2, 18, generator, block),
            Fault::BadAmount { station, amount } => refusal_at(3, 19, station, amount),
            Fault::FullCash { station, cash } => refusal_at(3, 20, station, cash),
            Fault::DrawAboveDue { station, available } => refusal_at(3, 21, station, available),
            Fault::DrawAboveCash { station, cash } => refusal_at(3, 22, station, cash),
        }
    }
}

/// A call that allocates is refused only for want of memory.
impl From<AllocError> for Fault {
    ghost from_gives = { λ _ fault. fault ≡ NoMemory };

    fn from(_error: AllocError) -> Self {
        Self::NoMemory
    }
}
