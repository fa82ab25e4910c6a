//! A station's statement, written.
ghost use Rattle.std.specs.Prelude.{◌≡◌, ◌≤◌, length};
ghost use Rattle.book.specs.States.{state};
ghost use Rattle.answering.specs.Entries.{LawfulDay};
ghost use Rattle.answering.specs.Statements.{line_at, lines_from, telling, writing_figures};
ghost use Rattle.spell.specs.Pages.{wrote};

use crate::by_line::room;
use arrayvec::ArrayVec;
use book::{Book, Pages, Statement as Figures};
use posting::account::Account;
use share::key::Key;
use spell::figures::{GeneratorLine, StationLine};
use spell::statement::{STATEMENT_PAGE, Statement};
use tariff::tariff::Tariff;
use units::fault::Fault;
use units::limits::{GENERATORS, MOST_BEFORE};

/// What the line of a generator says.
fn generator_line(generator: u64, account: &Account) -> GeneratorLine
    ensures { result ≡ line_at generator account.now }
{
    GeneratorLine {
        generator,
        energy: account.energy,
        money: account.money,
    }
}

/// What the lines of the generators say: the accounts, numbered from `first` on.
fn generator_lines(first: usize, accounts: &[Account]) -> ArrayVec<GeneratorLine, GENERATORS>
    requires low { first ≤ MOST_BEFORE }
    requires few { length accounts.now ≤ GENERATORS }
    ensures { result.items ≡ lines_from first accounts.now }
{
    let mut lines = ArrayVec::new();
    for (k, account) in accounts.iter().enumerate() {
        lines.push(generator_line((first + k) as u64, account));
    }
    lines
}

/// Writes the figures.
fn write(figures: &Figures, output: &mut [u8]) -> Result<usize, Fault>
    requires low { figures.now.first ≤ MOST_BEFORE }
    requires few { length figures.now.accounts.now ≤ GENERATORS }
    ensures { wrote result output.new ≡ writing_figures figures.now output.old }
{
    let generators = generator_lines(figures.first, figures.accounts);
    let statement = Statement {
        station: StationLine {
            station: figures.station,
            code: u64::from(figures.code),
            charges: figures.charges,
            due: figures.due,
            cash: figures.cash,
        },
        generators: &generators,
    };
    statement.write(output)
}

/// Writes the statement of a station, or says why there is none.
fn tell<T: Tariff, K: Key>(
    book: &Book<T, K>,
    pages: &Pages,
    t: u64,
    output: &mut [u8],
) -> Result<usize, Fault>
    ensures { wrote result output.new
        ≡ telling (T.Tariff.code_of book.now.tariff) t (state book.now pages.now) output.old }
{
    room(output, STATEMENT_PAGE)?;
    let figures = book.statement(pages, t)?;
    write(&figures, output)
}

/// Writes `(station t code charges due cash)`, then `(generator g energy money)` for each of its generators, to the front of the
/// output page, and answers the length. What stands behind is kept. A page under 4,096 bytes is refused, then a page of the book
/// that is too short, then a station that there is not; the page then stays as it was.
///
/// The law holds of every run that led to the book.
pub fn statement<T: Tariff, K: Key>(
    book: &Book<T, K>,
    pages: &Pages,
    t: u64,
    output: &mut [u8],
) -> Result<usize, Fault>
    ensures told { wrote result output.new
        ≡ telling (T.Tariff.code_of book.now.tariff) t (state book.now pages.now) output.old }
    ensures lawful { LawfulDay book.now pages.now }
{
    tell(book, pages, t, output)
}
