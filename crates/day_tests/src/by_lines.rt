//! A day by its lines.
use answering::{apply, line, open, start, statement};
use book::Pages;
use share::key::UnitsKey;
use std::test::Fail;
use tariff::banded::Banded;
use units::call::{Call, Opening};
use units::fault::Fault;

const OPENING: &[u8] = b"(open (0) (2) (1000 3000))";

const DAY: [(&[u8], &[u8]); 13] = [
    (b"(file 0 0 95 2000)", b"(ok)\n"),
    (b"(issue 0)", b"(ok)\n"),
    (b"(revise 0 1 92 (1000))", b"(ok)\n"),
    (b"(close 0)", b"(ok)\n"),
    (b"(read 0 0 95 500)", b"(ok)\n"),
    (b"(read 1 0 95 1500)", b"(ok)\n"),
    (b"(settle 0)", b"(ok)\n"),
    (b"(pay 0 4000)", b"(ok)\n"),
    (b"(correct 0 95 0)", b"(ok)\n"),
    (b"(draw 0 3000)", b"(no 3 21 0 2750)\n"),
    (b"(draw 0 2750)", b"(ok)\n"),
    (b"(draw 0 0x)", b"(no 1 8 9 0)\n"),
    (b"(drew 0 1)", b"(no 1 9 0 0)\n"),
];

const STATEMENT: &[u8] = b"(station 0 10 1250 0 1250)\n(generator 0 0 0)\n(generator 1 500 1250)\n";

/// The number of the cause, if it was refused.
fn number(answer: Result<usize, Fault>) -> Option<u64> {
    match answer {
        Ok(_) => None,
        Err(fault) => Some(fault.refusal().number),
    }
}

#[test]
fn a_day_by_lines(rt: HostRuntime) -> Result<(), Fail> {
    let mut pages = Pages::new(rt.alloc(), 1, 2)?;
    let mut output = [b'.'; 64];
    let begun = start(Banded::From10, UnitsKey, &mut pages, OPENING, &mut output)?;
    let (5, Some(mut book)) = begun else {
        panic!(rt; "not opened");
    };
    assert!(rt; output.starts_with(b"(ok)\n."));
    for (text, wanted) in DAY {
        let length = line(&mut book, &mut pages, text, &mut output)?;
        assert!(rt; length == wanted.len());
        assert!(rt; output.starts_with(wanted));
    }
    let mut output = [b'.'; 4096];
    let length = statement(&book, &pages, 0, &mut output)?;
    assert!(rt; length == STATEMENT.len());
    assert!(rt; output.starts_with(STATEMENT));
    Ok(())
}

/// A page too short for the text, a station that there is not, and a page of the book that is too short.
#[test]
fn refusals(rt: HostRuntime) -> Result<(), Fail> {
    let mut pages = Pages::new(rt.alloc(), 1, 2)?;
    let mut output = [b'.'; 4096];
    let begun = start(Banded::From10, UnitsKey, &mut pages, OPENING, &mut output)?;
    let Some(mut book) = begun.1 else {
        panic!(rt; "not opened");
    };
    let refused = line(&mut book, &mut pages, b"(pay 0 1)", &mut [b'.'; 63]);
    assert!(rt; number(refused) == Some(6));
    assert!(rt; book.cash() == 0);
    assert!(rt; number(statement(&book, &pages, 0, &mut [b'.'; 4095])) == Some(6));
    assert!(rt; number(statement(&book, &pages, 1, &mut output)) == Some(11));
    pages.accounts.truncate(1);
    assert!(rt; number(statement(&book, &pages, 1, &mut output)) == Some(5));
    assert!(rt; output.starts_with(b"(ok)\n."));
    line(&mut book, &mut pages, b"(pay 0 1)", &mut output)?;
    assert!(rt; output.starts_with(b"(no 0 5 4 2)\n"));
    Ok(())
}

#[test]
fn calls_without_lines(rt: HostRuntime) -> Result<(), Fail> {
    let mut pages = Pages::new(rt.alloc(), 1, 2)?;
    let opening = Opening {
        kinds: &[0],
        counts: &[2],
        installed: &[1000, 3000],
    };
    let mut book = open(Banded::From10, UnitsKey, &opening, &mut pages)?;
    let pay = Call::Pay {
        station: 0,
        amount: 4000,
    };
    apply(&mut book, &mut pages, &pay)?;
    assert!(rt; book.cash() == 4000);
    Ok(())
}
