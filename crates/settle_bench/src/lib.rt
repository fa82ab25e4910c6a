//! Settles full books, so that Rust can time it: `settle_full_books` is the one function that crosses, exported by `settle_bench_c`.
#![tactic(auto)]

mod failure;
mod full;
mod shares;

ghost use Rattle.posting.specs.Amounts.{opened_account};
ghost use Rattle.posting.specs.Sheets.{sheet_of};
ghost use Rattle.book.specs.States.{state};
ghost use Rattle.settle_bench.specs.Days.{day_sheet, given_sheet};
ghost use Rattle.settle_bench.specs.Full.{DoneTo, Full, Leaves, Sixteen};
ghost use Rattle.settle_bench.specs.Reports.{AllSettled, Reports};
ghost use Rattle.std.specs.Prelude.{◌≡◌, map, length, IfOk, IsTrue, Some, OnOk};
ghost use Rattle.tariff.specs.declared.banded.Banded.TheVariants.{From10};

use book::{Book, Pages};
pub use failure::Failure;
use full::full_opening;
use posting::account::Account;
use share::key::UnitsKey;
pub use shares::Shares;
use std::alloc::{AllocError, Global};
use tariff::banded::Banded;
use units::fault::Fault;
use units::limits::{ALL_GENERATORS, BLOCKS, STATIONS};

/// A day's numbers, as the caller lends them: 96 schedules a station, 96 capacities and readings a generator.
#[derive(Clone, Copy)]
struct Day<'a> {
    installed: &'a [u32],
    schedules: &'a [u32],
    capacities: &'a [u32],
    readings: &'a [u32],
}

/// A book whose stations have filed, issued and closed, and have still to be settled.
fn closed_book(installed: &[u64], pages: &mut Pages) -> Result<Book<Banded, UnitsKey>, Fault>
    ensures { IfOk result (λ b. (b.tariff ≡ From10) × Sixteen b.stations.items) }
{
    let opening = full_opening(installed);
    let mut book = Book::open(Banded::From10, UnitsKey, &opening, pages)?;
    for t in 0..STATIONS as u64 {
        book.file(pages, t, 0, BLOCKS as u64 - 1, 0)?;
        book.issue(pages, t)?;
        book.close(pages, t)?;
    }
    Ok(book)
}

/// Installed powers, as an opening lists them.
fn powers(heap: Global, installed: &[u32]) -> Result<Vec<u64>, AllocError> {
    installed.iter().map(|kw| u64::from(*kw)).collect(heap)
}

/// A page on which every reading is there.
fn read_page(heap: Global, readings: &[u32]) -> Result<Vec<Option<u32>>, AllocError>
    ensures { IfOk result (λ v. v.items ≡ map Some readings.now) }
{
    readings.iter().map(|kw| Some(*kw)).collect(heap)
}

/// Accounts of generators with these installed powers, as a day begins.
fn opened_accounts(heap: Global, installed: &[u32]) -> Result<Vec<Account>, AllocError>
    ensures { IfOk result (λ v. v.items ≡ map opened_account installed.now) }
{
    installed.iter().map(|kw| Account::new(*kw)).collect(heap)
}

/// Pages that hold the day's numbers.
#[tactic(auto, using(crate::proofs::Opening::powers_opened))]
fn day_pages(heap: Global, day: &Day) -> Result<Pages, AllocError>
    ensures { IfOk result (λ p. sheet_of p ≡ given_sheet day.now) }
{
    Ok(Pages {
        schedules: day.schedules.to_vec(heap)?,
        capacities: day.capacities.to_vec(heap)?,
        readings: read_page(heap, day.readings)?,
        accounts: opened_accounts(heap, day.installed)?,
    })
}

/// Settles every station of a full book.
fn settle_all(book: &mut Book<Banded, UnitsKey>, pages: &mut Pages) -> Result<(), Fault>
    requires tariff { book.old.tariff ≡ From10 }
    requires full { Full (sheet_of pages.old) (state book.old pages.old) }
    ensures { OnOk result (DoneTo STATIONS (sheet_of pages.old) (state book.new pages.new)) }
{
    for t in 0..STATIONS as u64 {
        book.settle(pages, t)?;
    }
    Ok(())
}

/// Writes what the stations owe, and what their generators got, as far as the slices go.
fn report(
    book: &Book<Banded, UnitsKey>,
    pages: &Pages,
    dues: &mut [i64],
    shares: &mut [Shares],
) -> Result<(), Fault>
    ensures { OnOk result (Reports (state book.now pages.now) dues.new shares.new) }
{
    for (t, due) in dues.iter_mut().enumerate() {
        *due = book.due(t as u64)?;
    }
    for (g, share) in shares.iter_mut().enumerate() {
        *share = Shares::from(book.account(pages, g as u64)?);
    }
    Ok(())
}

/// Opens a full book, and settles it where `settle` says so.
/// The calls before the readings write to pages of their own, so that the day's numbers are laid out once.
fn one_book(
    installed: &[u64],
    blank: &mut Pages,
    pages: &mut Pages,
    settle: bool,
) -> Result<Book<Banded, UnitsKey>, Fault>
    requires { length pages.old.accounts.items ≡ ALL_GENERATORS }
    ensures { IfOk result (λ b. Leaves settle (sheet_of pages.old) (state b pages.new)) }
{
    let mut book = closed_book(installed, blank)?;
    if settle {
        settle_all(&mut book, pages)?;
    }
    Ok(book)
}

/// The last of `books` full books, each settled where `settle` says so.
fn last_book(
    heap: Global,
    installed: &[u64],
    pages: &mut Pages,
    books: usize,
    settle: bool,
) -> Result<Book<Banded, UnitsKey>, Failure>
    requires { length pages.old.accounts.items ≡ ALL_GENERATORS }
    ensures { IfOk result (λ b. Leaves settle (sheet_of pages.old) (state b pages.new)) }
{
    let mut blank = Pages::new(heap, STATIONS as u8, ALL_GENERATORS as u16)?;
    let mut last = None;
    for _ in 0..books {
        last = Some(one_book(installed, &mut blank, pages, settle)?);
    }
    last.ok_or(Failure::NoBook)
}

/// Opens `books` full books, settles each where `settle` says so, and reports the last.
fn run(
    heap: Global,
    day: &Day,
    books: usize,
    settle: bool,
    dues: &mut [i64],
    shares: &mut [Shares],
) -> Result<(), Failure>
    ensures { OnOk result (IsTrue settle → AllSettled (given_sheet day.now) dues.new shares.new) }
{
    let given = day.installed.len();
    if given != ALL_GENERATORS {
        return Err(Failure::Refused(Fault::InstalledCount {
            given: given as u64,
            needed: ALL_GENERATORS as u64,
        }));
    }
    let installed = powers(heap, day.installed)?;
    let mut pages = day_pages(heap, day)?;
    let book = last_book(heap, &installed, &mut pages, books, settle)?;
    report(&book, &pages, dues, shares)?;
    Ok(())
}

/// Opens `books` full books on the caller's numbers, settles each where `settle` says so, and reports the last.
/// It fails where a page is too short, a number is refused, or there is no memory or no book.
pub fn settle_full_books<'a>(
    heap: Global,
    installed: &'a [u32],
    schedules: &'a [u32],
    capacities: &'a [u32],
    readings: &'a [u32],
    books: usize,
    settle: bool,
    dues: &mut [i64],
    shares: &mut [Shares],
) -> Result<(), Failure>
    ensures { OnOk result (IsTrue settle → AllSettled (day_sheet installed.now schedules.now capacities.now readings.now) dues.new shares.new) }
{
    let day = Day {
        installed,
        schedules,
        capacities,
        readings,
    };
    run(heap, &day, books, settle, dues, shares)
}
