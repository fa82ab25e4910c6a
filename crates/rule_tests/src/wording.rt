use std::test::Fail;
use units::fault::Fault;
use units::station::{Phase, UnknownKind};

/// A cause, and what it tells a person.
const WORDS: [(Fault, &str); 28] = [
    (Fault::NoMemory, "there is no memory left"),
    (
        Fault::StationCount {
            kinds: 2,
            counts: 3,
        },
        "2 kinds and 3 counts are not those of 1 to 16 stations",
    ),
    (
        Fault::BadStation { station: 4 },
        "station 4 is of no kind, or has not 1 to 32 generators",
    ),
    (
        Fault::InstalledCount {
            given: 5,
            needed: 6,
        },
        "5 installed powers are given for 6 generators",
    ),
    (
        Fault::InstalledRange {
            generator: 7,
            kw: 8,
        },
        "generator 7 has 8 kW installed, which is not 1000 to 200000",
    ),
    (
        Fault::ShortPage {
            page: 3,
            needed: 96,
        },
        "the page Readings is too short: 96 entries are needed",
    ),
    (
        Fault::ShortPage { page: 7, needed: 3 },
        "the page of no name is too short: 3 entries are needed",
    ),
    (
        Fault::HighRate { rate: 4001 },
        "the rate 4001 is above 4000 paise per kWh",
    ),
    (
        Fault::BadPenalty { value: 3334 },
        "no penalty may stand on 3334: a ceiling is at most 3333, a capacity at most 6400000 kW",
    ),
    (
        Fault::ShortOutput { length: 63 },
        "a page of 63 bytes is too short for the text",
    ),
    (
        Fault::LongLine { length: 1025 },
        "the line is over 1024 bytes",
    ),
    (
        Fault::NotForm { start: 9 },
        "not a form behind its first 9 bytes",
    ),
    (Fault::UnknownHead, "no call has this head"),
    (
        Fault::BadArgument { position: 2 },
        "argument 2 is missing, surplus or of the wrong sort",
    ),
    (
        Fault::NoSuchNumber { number: 16 },
        "there is no station or generator 16",
    ),
    (
        Fault::WrongPhase {
            station: 1,
            phase: Phase::Metering,
        },
        "station 1 takes no such call in its phase, Metering",
    ),
    (
        Fault::BadBlocks { from: 9, to: 8 },
        "9 to 8 are no blocks of the day in their order",
    ),
    (
        Fault::BadNotice { notice: 93 },
        "no notice may be given in block 93",
    ),
    (
        Fault::ValueCount {
            given: 2,
            needed: 1,
        },
        "2 values are given for 1 blocks",
    ),
    (
        Fault::HighValue {
            position: 3,
            limit: 200000,
        },
        "the value at position 3 is above 200000",
    ),
    (
        Fault::RevisionNumber { given: 3, next: 2 },
        "revision 3 is not the next, which is 2",
    ),
    (
        Fault::UsedSlot { slot: 4, last: 5 },
        "slot 4 is not later than the last revision's, 5",
    ),
    (
        Fault::Unfiled {
            station: 1,
            block: 95,
        },
        "station 1 has no schedule in block 95",
    ),
    (
        Fault::MissingReading {
            generator: 2,
            block: 94,
        },
        "generator 2 has no reading in block 94",
    ),
    (
        Fault::BadAmount {
            station: 1,
            amount: 0,
        },
        "station 1 asks for 0 paise, which is not 1 to 1000000000000",
    ),
    (
        Fault::FullCash {
            station: 1,
            cash: 7,
        },
        "the pool's 7 paise and what station 1 pays would pass 1000000000000000",
    ),
    (
        Fault::DrawAboveDue {
            station: 1,
            available: 2750,
        },
        "station 1 may draw 2750 paise and no more",
    ),
    (
        Fault::DrawAboveCash {
            station: 1,
            cash: 6,
        },
        "the pool holds 6 paise, less than station 1 asks for",
    ),
];

#[test]
fn each_cause_has_its_words(rt: HostRuntime) -> Result<(), Fail> {
    for (fault, words) in &WORDS {
        assert!(rt;
            fault.to_string(rt.alloc())?.as_str() == *words,
            "{}",
            words
        );
    }
    Ok(())
}

#[test]
fn unknown_kind_has_its_words(rt: HostRuntime) -> Result<(), Fail> {
    let words = UnknownKind(2).to_string(rt.alloc())?;
    assert!(rt; words.as_str() == "there is no kind of station 2");
    Ok(())
}
