//! Exports `settle_bench::settle_full_books` to C, with the same promise.
#![tactic(auto)]

ghost use Rattle.settle_bench.specs.Days.{day_sheet};
ghost use Rattle.settle_bench.specs.Reports.{AllSettled};
ghost use Rattle.std.specs.Prelude.{IsTrue};

use settle_bench::Shares;
use std::alloc::Global;

/// Opens `books` full books on the caller's numbers, settles each where `settle` says so, and reports the last.
/// Whether that was done: not where a page is too short, a number is refused, or there is no memory or no book.
#[unsafe(no_mangle)]
pub extern "C" fn settle_full_books<'a>(
    heap: Global,
    installed: &'a [u32],
    schedules: &'a [u32],
    capacities: &'a [u32],
    readings: &'a [u32],
    books: usize,
    settle: bool,
    dues: &mut [i64],
    shares: &mut [Shares],
) -> bool
    ensures { IsTrue result → IsTrue settle → AllSettled (day_sheet installed.now schedules.now capacities.now readings.now) dues.new shares.new }
{
    settle_bench::settle_full_books(
        heap, installed, schedules, capacities, readings, books, settle, dues, shares,
    )
    .is_ok()
}
