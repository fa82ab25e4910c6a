//! A whole day: lines in, answers and statements out.
ghost use Rattle.std.specs.Io.KnownBytes.{Appends};
ghost use Rattle.std.specs.Prelude.{◌≡◌, ◌≤◌, ◌↔◌, [], false, true, length, take, IfOk, IsTrue, OnErr, OnOk};
ghost use Rattle.book.specs.States.{state};
ghost use Rattle.whole_day.specs.Days.{AnsweredAll, AnsweredBy, AnsweredRest, AnsweredSome, AnsweredUnwritten};
ghost use Rattle.whole_day.specs.Days.{Day, OpenedBy, OpenedUnwritten, StatedAll, Stopped};
ghost use Rattle.whole_day.specs.Inputs.{left};

use crate::ahead::Ahead;
use crate::taking::Line;
use answering::{line as answer_line, start, statement};
use book::{Book, Pages};
use share::key::Key;
use spell::answers::ANSWER_PAGE;
use spell::statement::STATEMENT_PAGE;
use std::io;
use std::io::{ErrorKind, Read, Write};
use tariff::tariff::Tariff;
use units::limits::STATIONS;

/// Writes out the front of a page.
fn write_front<W: Write>(page: &[u8], count: usize, writer: &mut W) -> io::Result<()>
    requires { count ≤ length page.now }
    ensures { OnOk result (Appends (W.contents writer.old) (W.contents writer.new)
        (take count page.now)) }
{
    writer.write_all(&page[..count])
}

/// Opens the book of the line, and writes the answer.
fn open_by<T: Tariff + Drop, K: Key + Drop, W: Write>(
    tariff: T,
    key: K,
    pages: &mut Pages,
    line: &[u8],
    writer: &mut W,
) -> io::Result<Option<Book<T, K>>>
    ensures done { IfOk result (OpenedBy tariff key line.now pages.old pages.new
        (W.contents writer.old) (W.contents writer.new)) }
    ensures failed { OnErr result (OpenedUnwritten T.Tariff K.Key tariff key line.now
        pages.old pages.new) }
{
    let mut output = [0u8; ANSWER_PAGE];
    match start(tariff, key, pages, line, &mut output) {
        Ok((length, book)) => {
            write_front(&output, length, writer)?;
            Ok(book)
        }
        Err(_) => Ok(None),
    }
}

/// Makes the call of the line, and writes the answer.
fn answer<T: Tariff, K: Key, W: Write>(
    book: &mut Book<T, K>,
    pages: &mut Pages,
    line: &[u8],
    writer: &mut W,
) -> io::Result<()>
    ensures done { OnOk result (AnsweredBy line.now book.old pages.old book.new pages.new
        (W.contents writer.old) (W.contents writer.new)) }
    ensures failed { OnErr result (AnsweredUnwritten line.now book.old pages.old
        book.new pages.new) }
{
    let mut output = [0u8; ANSWER_PAGE];
    match answer_line(book, pages, line, &mut output) {
        Ok(length) => write_front(&output, length, writer),
        Err(_) => Ok(()),
    }
}

/// The input is at its end, and no line is left: the last one had no line feed and is empty.
fn is_end(fed: bool, line: &Line) -> bool
    ensures { IsTrue result ↔ ((fed ≡ false) × (line.now.items ≡ [])) }
{
    !fed && line.is_empty()
}

/// Answers each line, and at the end a last one without a line feed.
fn answer_all<T: Tariff, K: Key, R: Read, W: Write>(
    book: &mut Book<T, K>,
    pages: &mut Pages,
    ahead: &mut Ahead,
    reader: &mut R,
    writer: &mut W,
) -> io::Result<()>
    ensures done { OnOk result (AnsweredAll (left R.remaining ahead.old reader.old)
        book.old pages.old book.new pages.new (W.contents writer.old) (W.contents writer.new)) }
    ensures failed { OnErr result (AnsweredSome (left R.remaining ahead.old reader.old)
        book.old pages.old book.new pages.new) }
{
    let mut line = Line::new();
    for _ in 0..u64::MAX {
        let fed = ahead.next_line(reader, writer, &mut line)?;
        if is_end(fed, &line) {
            return Ok(());
        }
        answer(book, pages, &line, writer)?;
        if !fed {
            return Ok(());
        }
    }
    Err(ErrorKind::Other.into())
}

/// Answers the lines behind a first one. Where that had no line feed there are none, and nothing is read.
fn answer_rest<T: Tariff, K: Key, R: Read, W: Write>(
    fed: bool,
    book: &mut Book<T, K>,
    pages: &mut Pages,
    ahead: &mut Ahead,
    reader: &mut R,
    writer: &mut W,
) -> io::Result<()>
    ensures done { OnOk result (AnsweredRest fed (left R.remaining ahead.old reader.old)
        book.old pages.old book.new pages.new (W.contents writer.old) (W.contents writer.new)) }
    ensures failed { OnErr result ((fed ≡ true) × AnsweredSome
        (left R.remaining ahead.old reader.old) book.old pages.old book.new pages.new) }
{
    if !fed {
        return Ok(());
    }
    answer_all(book, pages, ahead, reader, writer)
}

/// Writes each station's statement.
#[tactic(auto, using(crate::proofs::Wholes::stated_all))]
fn state_all<T: Tariff, K: Key, W: Write>(
    book: &Book<T, K>,
    pages: &Pages,
    writer: &mut W,
) -> io::Result<()>
    ensures { OnOk result (StatedAll (T.Tariff.code_of book.now.tariff) (state book.now pages.now)
        (W.contents writer.old) (W.contents writer.new)) }
{
    let mut output = [0u8; STATEMENT_PAGE];
    for t in 0..STATIONS as u64 {
        match statement(book, pages, t, &mut output) {
            Ok(length) => write_front(&output, length, writer)?,
            Err(_) => return Ok(()),
        }
    }
    Ok(())
}

/// Opens a book by the next line, answers the lines behind it, and writes the statements.
fn day<T: Tariff + Drop, K: Key + Drop, R: Read, W: Write>(
    tariff: T,
    key: K,
    pages: &mut Pages,
    ahead: &mut Ahead,
    reader: &mut R,
    writer: &mut W,
) -> io::Result<()>
    ensures done { OnOk result (Day T.Tariff K.Key tariff key
        (left R.remaining ahead.old reader.old)
        pages.old pages.new (W.contents writer.old) (W.contents writer.new)) }
    ensures failed { OnErr result (Stopped T.Tariff K.Key tariff key
        (left R.remaining ahead.old reader.old) pages.old pages.new) }
{
    let mut line = Line::new();
    let fed = ahead.next_line(reader, writer, &mut line)?;
    if is_end(fed, &line) {
        return Ok(());
    }
    let Some(mut book) = open_by(tariff, key, pages, &line, writer)? else {
        return Ok(());
    };
    answer_rest(fed, &mut book, pages, ahead, reader, writer)?;
    state_all(&book, pages, writer)
}

/// Opens a book by the first line, makes each other line's call, writes each answer, and at the end each station's statement.
/// What is held back is written out before more is read. A refused opening ends the day.
/// Where the reader or the writer fails, the pages are as some lines at the front of the input leave them;
/// if none of them opened a book, no page changed.
/// The law holds of every run (docs/RULES.md, "The law over every run").
#[tactic(auto, using(crate::proofs::Inputs::none_ahead))]
pub fn run<T: Tariff + Drop, K: Key + Drop, R: Read, W: Write>(
    tariff: T,
    key: K,
    pages: &mut Pages,
    reader: &mut R,
    writer: &mut W,
) -> io::Result<()>
    ensures done { OnOk result (Day T.Tariff K.Key tariff key (R.remaining reader.old)
        pages.old pages.new (W.contents writer.old) (W.contents writer.new)) }
    ensures failed { OnErr result (Stopped T.Tariff K.Key tariff key (R.remaining reader.old)
        pages.old pages.new) }
{
    let mut ahead = Ahead::new();
    day(tariff, key, pages, &mut ahead, reader, writer)
}
