//! The pages of a day: plain numbers, used from the front.
ghost use Rattle.std.specs.Prelude.{◌≡◌, ◌<◌, IfOk, slice_index, slice_index_or};
ghost use Rattle.posting.specs.Sheets.{Blank, installed_of, installed_power_at};
ghost use Rattle.posting.specs.Sheets.{load_at, schedule_entry_at, sheet_of};

use crate::account::Account;
use share::generator::Generator;
use share::load::Load;
use std::alloc::{AllocError, Global};
use units::limits::{ALL_GENERATORS, BLOCKS, LEAST_INSTALLED, MOST_INSTALLED, STATION_KW};

/// Schedules, 96 a station; capacities and readings, 96 a generator; accounts, 1 a generator. A reading is there or not.
/// Power is in kW. A number beyond its limit is taken as the nearest one allowed.
#[derive(Drop)]
pub struct Pages {
    pub schedules: Vec<u32>,
    pub capacities: Vec<u32>,
    pub readings: Vec<Option<u32>>,
    pub accounts: Vec<Account>,
}

/// What stands at a place of a page, or `past` past its end.
pub(crate) fn entry_or<T: Copy>(page: &[T], at: usize, past: T) -> T
    ensures { result ≡ slice_index_or page.now at past }
{
    page.get(at).copied().unwrap_or(past)
}

/// The installed power on a page of accounts, or zero past its end.
fn installed_at(accounts: &[Account], generator: usize) -> u32
    ensures { result ≡ slice_index (installed_of accounts.now) generator }
{
    entry_or(accounts, generator, Account::new(0)).installed
}

impl Pages {
    /// New pages with room for so many stations and generators: nothing scheduled or read, and accounts of zeros.
    pub fn new(heap: Global, stations: u8, generators: u16) -> Result<Pages, AllocError>
        ensures { IfOk result (Blank stations generators) }
    {
        let stations = usize::from(stations);
        let generators = usize::from(generators);
        let unread: Option<u32> = None;
        Ok(Pages {
            schedules: vec![in heap; 0u32; BLOCKS * stations]?,
            capacities: vec![in heap; 0u32; BLOCKS * generators]?,
            readings: vec![in heap; unread; BLOCKS * generators]?,
            accounts: vec![in heap; Account::new(0); generators]?,
        })
    }

    /// A generator's installed power, as the nearest number allowed.
    pub fn installed(&self, generator: usize) -> u32
        ensures { result ≡ installed_power_at self.now.accounts.items generator }
    {
        installed_at(&self.accounts, generator).clamp(LEAST_INSTALLED, MOST_INSTALLED)
    }

    /// What a station has scheduled for a block.
    pub(crate) fn schedule_at(&self, station: u8, block: u8) -> u32
        ensures { result ≡ schedule_entry_at self.now.schedules.items station block }
    {
        let at = BLOCKS * usize::from(station) + usize::from(block);
        entry_or(&self.schedules, at, 0).min(STATION_KW)
    }

    /// A generator in a block, each number taken as the nearest one allowed. A missing reading counts as zero.
    pub(crate) fn generator_at(&self, generator: usize, block: u8) -> Generator
        requires { generator < ALL_GENERATORS }
        ensures { result.load ≡ load_at (sheet_of self.now) generator block }
    {
        let at = BLOCKS * generator + usize::from(block);
        Generator::new(Load {
            actual: entry_or(&self.readings, at, None).unwrap_or(0),
            capacity: entry_or(&self.capacities, at, 0),
            installed: installed_at(&self.accounts, generator),
        })
    }
}
