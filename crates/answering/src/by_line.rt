//! Lines, made as calls.
ghost use Rattle.std.specs.Prelude.{◌≡◌, [], None, IfOk};
ghost use Rattle.book.specs.Calls.{Makes};
ghost use Rattle.book.specs.Opening.{Opens};
ghost use Rattle.book.specs.Runs.{step};
ghost use Rattle.answering.specs.Entries.{Came, Next, typed};
ghost use Rattle.answering.specs.Lines.{Begins, Handled, Lined, Started, WritesBegun, WritesHandled};
ghost use Rattle.spell.specs.Causes.{short_page};
ghost use Rattle.units.specs.Refusals.{Passes};

use book::{Book, Pages};
use lines::lists::{Lists, Room};
use lines::read::{read_call, read_opening};
use share::key::Key;
use spell::answers::{ANSWER_PAGE, write_answer};
use tariff::tariff::Tariff;
use units::call::{Call, Opening};
use units::fault::Fault;

/// The output page has room for a text of so many bytes.
pub(crate) fn room(output: &[u8], least: usize) -> Result<(), Fault>
    ensures { Passes (short_page least output.now) result }
{
    if output.len() < least {
        return Err(Fault::ShortOutput {
            length: output.len() as u64,
        });
    }
    Ok(())
}

/// Opens a book: no entry led to it.
#[tactic(auto, using(crate::proofs::Days::came_open))]
pub fn open<T: Tariff + Drop, K: Key + Drop>(
    tariff: T,
    key: K,
    opening: &Opening,
    pages: &mut Pages,
) -> Result<Book<T, K>, Fault>
    ensures opens { Opens tariff key opening.now pages.old pages.new result }
    ensures came { IfOk result (λ b. Came tariff key pages.old opening.now [] [] b pages.new) }
{
    Book::open(tariff, key, opening, pages)
}

/// Makes a call: with its answer, it is the next entry of any run that led to the book.
#[tactic(auto, using(crate::proofs::Answered::call_next))]
pub fn apply<T: Tariff, K: Key>(
    book: &mut Book<T, K>,
    pages: &mut Pages,
    call: &Call,
) -> Result<(), Fault>
    ensures makes { Makes (step call.now) book.old pages.old book.new pages.new result }
    ensures next { Next (typed call.now) result book.old pages.old book.new pages.new }
{
    book.apply(pages, call)
}

/// Reads the line and makes its call.
#[tactic(auto, using(tokens::proofs::Pieces::exit_is))]
fn handle<T: Tariff, K: Key>(
    book: &mut Book<T, K>,
    pages: &mut Pages,
    line: &[u8],
) -> Result<(), Fault>
    ensures { Handled line.now book.old pages.old book.new pages.new result }
{
    let mut room = Room::new();
    let call = read_call(line, &mut room)?;
    book.apply(pages, &call)
}

/// Writes the answer: what was handled so is then the next entry of any run that led to the book.
fn write_handled<T: Tariff, K: Key>(
    answer: &Result<(), Fault>,
    output: &mut [u8],
) -> Result<usize, Fault>
    requires { short_page ANSWER_PAGE output.old ≡ None }
    ensures { WritesHandled T.Tariff K.Key answer.now output.old output.new result }
{
    write_answer(answer, output)
}

/// Reads the line, makes its call, and writes the answer to the front of the output page: its length.
/// A page under 64 bytes is refused, and then nothing is written and no call made.
/// With the answer, the line is the next entry of any run that led to the book.
#[tactic(auto, using(crate::proofs::Answered::line_refused, tokens::proofs::Pieces::exit_is))]
pub fn line<T: Tariff, K: Key>(
    book: &mut Book<T, K>,
    pages: &mut Pages,
    line: &[u8],
    output: &mut [u8],
) -> Result<usize, Fault>
    ensures { Lined line.now output.old book.old pages.old book.new pages.new output.new result }
{
    room(output, ANSWER_PAGE)?;
    let answer = handle(book, pages, line);
    write_handled::<T, K>(&answer, output)
}

/// Reads the line and opens its book.
#[tactic(auto, using(tokens::proofs::Pieces::exit_is))]
fn begin<T: Tariff + Drop, K: Key + Drop>(
    tariff: T,
    key: K,
    pages: &mut Pages,
    line: &[u8],
) -> Result<Book<T, K>, Fault>
    ensures { Begins tariff key line.now pages.old pages.new result }
{
    let mut lists = Lists::new();
    let opening = read_opening(line, &mut lists)?;
    Book::open(tariff, key, &opening, pages)
}

/// Writes the answer of an opening: its length, and the book if it was opened.
fn write_begun<T: Tariff + Drop, K: Key + Drop>(
    opened: Result<Book<T, K>, Fault>,
    output: &mut [u8],
) -> Result<(usize, Option<Book<T, K>>), Fault>
    requires { short_page ANSWER_PAGE output.old ≡ None }
    ensures { WritesBegun T.Tariff K.Key opened output.old output.new result }
{
    let (answer, book) = match opened {
        Ok(book) => (Ok(()), Some(book)),
        Err(fault) => (Err(fault), None),
    };
    let length = write_answer(&answer, output)?;
    Ok((length, book))
}

/// Reads the line, opens its book, and writes the answer as `line` does: its length, and the book if it was opened.
/// No entry led to that book.
pub fn start<T: Tariff + Drop, K: Key + Drop>(
    tariff: T,
    key: K,
    pages: &mut Pages,
    line: &[u8],
    output: &mut [u8],
) -> Result<(usize, Option<Book<T, K>>), Fault>
    ensures { Started tariff key line.now output.old pages.old pages.new output.new result }
{
    room(output, ANSWER_PAGE)?;
    let opened = begin(tariff, key, pages, line);
    write_begun(opened, output)
}
