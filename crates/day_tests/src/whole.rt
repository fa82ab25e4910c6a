//! A whole day, from a reader to a writer.
use crate::streams::{Pieces, Taker};
use book::Pages;
use share::key::UnitsKey;
use std::alloc::Global;
use std::cell::Cell;
use std::io;
use std::io::{ErrorKind, Read, Write};
use std::test::Fail;
use tariff::banded::Banded;
use whole_day::run;

const INPUT: &[u8] = b"(open (0) (2) (1000 3000))\n(pay 0 4000)\n\n(draw 0 1)";

const OUTPUT: &[u8] =
    b"(ok)\n(ok)\n(no 1 8 0 0)\n(ok)\n(station 0 10 0 -3999 3999)\n(generator 0 0 0)\n(generator 1 0 0)\n";

const REFUSED: &[u8] = b"(open (0) (3) (1000 3000 1000))\n(pay 0 4000)\n";

const WHOLE: [(&[u8], &[u8]); 5] = [
    (b"", b""),
    (b"\n", b"(no 1 8 0 0)\n"),
    (
        b"(open (0) (2) (1000 3000))",
        b"(ok)\n(station 0 10 0 0 0)\n(generator 0 0 0)\n(generator 1 0 0)\n",
    ),
    (INPUT, OUTPUT),
    (REFUSED, b"(no 0 5 2 288)\n"),
];

fn run_day<R: Read, W: Write>(alloc: Global, reader: &mut R, writer: &mut W) -> io::Result<()> {
    let mut pages = Pages::new(alloc, 1, 2)?;
    run(Banded::From10, UnitsKey, &mut pages, reader, writer)
}

/// The first line opens the book, an empty line is a line, a last one needs no line feed, and statements follow.
#[test]
fn a_day_whole(rt: HostRuntime) -> Result<(), Fail> {
    for (input, wanted) in WHOLE {
        let mut input = input;
        let mut written = Vec::new(rt.alloc());
        run_day(rt.alloc(), &mut input, &mut written)?;
        assert!(rt; input.is_empty());
        assert!(rt; written.as_slice() == wanted);
    }
    Ok(())
}

/// Of a line that is too long so much is kept as shows it.
#[test]
fn a_long_line(rt: HostRuntime) -> Result<(), Fail> {
    let mut day = Vec::new(rt.alloc());
    day.extend_from_slice(b"(open (0) (2) (1000 3000))\n(pay 0 1)")?;
    for _ in 0..3000 {
        day.push(b' ')?;
    }
    day.extend_from_slice(b"\n(pay 0 1)\n")?;
    let mut input = day.as_slice();
    let mut written = Vec::new(rt.alloc());
    run_day(rt.alloc(), &mut input, &mut written)?;
    assert!(rt; written.starts_with(b"(ok)\n(no 1 7 1025 0)\n(ok)\n(station 0 10 0 -1 1)\n"));
    Ok(())
}

/// What a day does that comes in pieces of 16 bytes, with an error of this kind after some reads.
/// A read fails where an answer is still held back, so none is.
fn run_pieces(
    rt: &HostRuntime,
    input: &[u8],
    fails_after: Option<usize>,
    kind: ErrorKind,
    room: usize,
) -> (Option<ErrorKind>, Vec<u8>, usize) {
    let held = Cell::new(0);
    let mut reader = Pieces {
        rest: input,
        most: 16,
        fails_after,
        kind,
        held: &held,
    };
    let mut writer = Taker {
        taken: Vec::new(rt.alloc()),
        room,
        held: &held,
    };
    let error = run_day(rt.alloc(), &mut reader, &mut writer).err();
    (error.map(|e| e.kind()), writer.taken, reader.rest.len())
}

/// An interrupted read is made again; after any other error, of the reader or of the writer, no more is written.
#[test]
fn a_day_in_pieces(rt: HostRuntime) {
    let (reset, again) = (ErrorKind::ConnectionReset, ErrorKind::Interrupted);
    let (error, written, rest) = run_pieces(&rt, INPUT, None, reset, 1000);
    assert!(rt; error.is_none() && rest == 0);
    assert!(rt; written.as_slice() == OUTPUT);

    let (error, written, rest) = run_pieces(&rt, INPUT, Some(2), again, 1000);
    assert!(rt; error.is_none() && rest == 0);
    assert!(rt; written.as_slice() == OUTPUT);

    let (error, written, _) = run_pieces(&rt, INPUT, Some(3), reset, 1000);
    assert!(rt; error == Some(reset));
    assert!(rt; written.as_slice() == b"(ok)\n(ok)\n(no 1 8 0 0)\n".as_slice());

    let (error, written, _) = run_pieces(&rt, INPUT, None, reset, 7);
    assert!(rt; error == Some(ErrorKind::BrokenPipe));
    assert!(rt; written.as_slice() == b"(ok)\n(o".as_slice());

    let (error, written, rest) = run_pieces(&rt, REFUSED, None, reset, 1000);
    assert!(rt; error.is_none() && rest == 13);
    assert!(rt; written.as_slice() == b"(no 0 5 2 288)\n".as_slice());
}
