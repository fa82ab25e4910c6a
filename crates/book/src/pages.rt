//! Reads and writes the pages that a caller lends with each call.
ghost use Rattle.std.specs.Prelude.{◌≡◌, ◌+◌, ◌-◌, ◌*◌, ◌<◌, ◌≤◌, map, length, unsigned_abs};
ghost use Rattle.book.specs.Lists.{spliced};
ghost use Rattle.book.specs.Opening.{all_day, Begun, Installable};
ghost use Rattle.book.specs.States.{lengths_in, Room};
ghost use Rattle.std.specs.List.{flat_map};
ghost use Rattle.posting.specs.Amounts.{opened_account};
ghost use Rattle.posting.specs.Days.{day_on, posted_accounts, standing_charges};
ghost use Rattle.share.specs.Rules.{rules_of};

use posting::account::Account;
use posting::day::Day;
use posting::members::Members;
use posting::pages::Pages;
use share::key::Key;
use std::ops::Range;
use tariff::tariff::Tariff;
use units::limits::{ALL_GENERATORS, BLOCKS, DAY_PAISE, STATIONS};

/// The entries of the blocks `from` to `to` on a page that has 96 for each, for the station or generator with this number.
pub(crate) fn entries(number: u64, from: u64, to: u64) -> Range<usize>
    requires number { number < ALL_GENERATORS }
    requires blocks { (from ≤ to) × (to < BLOCKS) }
    ensures start { result.start ≡ BLOCKS * number + from }
    ensures end { result.end ≡ BLOCKS * number + from + (to - from + 1) }
{
    let start = BLOCKS * number as usize + from as usize;
    start..start + (to - from + 1) as usize
}

/// Writes each generator's installed power as its capacity in each block.
fn install(page: &mut [u32], installed: &[u64])
    requires installable { Installable installed.now }
    requires few { length installed.now ≤ ALL_GENERATORS }
    requires room { BLOCKS * length installed.now ≤ length page.old }
    ensures { page.new ≡ spliced 0 (flat_map all_day installed.now) page.old }
{
    // By places: while `chunks_mut` or `iter_mut` lends the page out, no invariant of a loop can name what it holds.
    for (g, kw) in installed.iter().enumerate() {
        let start = BLOCKS * g;
        page[start..start + BLOCKS].fill(*kw as u32);
    }
}

/// Writes an account for each generator.
fn open_accounts(page: &mut [Account], installed: &[u64])
    requires installable { Installable installed.now }
    requires room { length installed.now ≤ length page.old }
    ensures { page.new ≡ spliced 0 (map opened_account installed.now) page.old }
{
    for (g, kw) in installed.iter().enumerate() {
        page[g] = Account::new(*kw as u32);
    }
}

/// The pages as a day begins: nothing scheduled, all installed power available, nothing metered or shared.
pub(crate) fn begin(pages: &mut Pages, stations: usize, installed: &[u64])
    requires few { stations ≤ STATIONS }
    requires most { length installed.now ≤ ALL_GENERATORS }
    requires installable { Installable installed.now }
    requires room { Room stations (length installed.now) (lengths_in pages.old) }
    ensures { Begun stations installed.now pages.old pages.new }
{
    pages.schedules[0..BLOCKS * stations].fill(0);
    install(&mut pages.capacities, installed);
    pages.readings[0..BLOCKS * installed.len()].fill(None);
    open_accounts(&mut pages.accounts, installed);
}

/// Posts the day of station `t` from the pages, and answers its standing charges.
pub(crate) fn post<T: Tariff, K: Key>(
    tariff: &T,
    key: &K,
    t: u8,
    members: Members,
    pages: &mut Pages,
) -> i64
    ensures charges { result ≡ standing_charges (day_on (rules_of T.Tariff K.Key tariff.now) pages.old t members) }
    ensures light { unsigned_abs result ≤ DAY_PAISE }
    ensures written { pages.new.accounts.items
        ≡ posted_accounts (day_on (rules_of T.Tariff K.Key tariff.now) pages.old t members) pages.old.accounts.items }
    ensures others { pages.new ≡ record pages.old { accounts = pages.new.accounts } }
{
    let day = Day {
        tariff,
        key,
        station: t,
        members,
        pages,
    };
    let sums = day.sums();
    sums.post(&mut pages.accounts);
    sums.charges
}
