//! A station's day: 96 blocks, posted to its generators' accounts.
ghost use Rattle.std.specs.Prelude.{◌≡◌, ℕ, ◌*◌, ◌<◌, ◌≤◌, length, get_or, ◌+ℤ◌, slice_index_or, slice_set, unsigned_abs};
ghost use Rattle.posting.specs.Amounts.{amounts_at, no_amounts, plus, with_amounts, Within};
ghost use Rattle.posting.specs.Days.{Afresh, changed, no_account, Posted, StationDay, SumsOf, SumsTo, the_day, with_sums};
ghost use Rattle.share.specs.Held.{held};
ghost use Rattle.share.specs.Shares.{shares};

use crate::account::Account;
use crate::amounts::{Amounts, add};
use crate::members::Members;
use crate::pages::Pages;
use arrayvec::ArrayVec;
use share::key::Key;
use share::weights::Weights;
use tariff::tariff::Tariff;
use units::limits::{BLOCK_PAISE, BLOCKS, DAY_PAISE, GENERATORS};

/// A station's day on the pages, with the tariff that charges it and the key that splits it.
#[derive(Drop)]
pub struct Day<'a, T, K> {
    pub tariff: &'a T,
    pub key: &'a K,
    pub station: u8,
    pub members: Members,
    pub pages: &'a Pages,
}

/// The charges of a station's day, and what each of its generators gets of them and of the deviations.
#[derive(Clone, Copy)]
pub struct DaySums {
    pub members: Members,
    pub charges: i64,
    pub each: [Amounts; GENERATORS],
}

/// Adds a share to a generator's sums.
fn add_to(sums: &mut [Amounts; GENERATORS], k: usize, share: Amounts)
    requires inside { k < GENERATORS }
    requires room { Within DAY_PAISE (slice_index_or sums.old k no_amounts) }
    requires small { Within BLOCK_PAISE share }
    ensures { sums.new ≡ slice_set sums.old k (plus (slice_index_or sums.old k no_amounts) share) }
{
    add(&mut sums[k], share);
}

/// Adds what each generator gets of a block's figures to its shares of the blocks before.
fn add_shares(sums: &mut [Amounts; GENERATORS], figures: Amounts, weights: &Weights)
    requires room { (k : ℕ) → Within DAY_PAISE (slice_index_or sums.old k no_amounts) }
    requires small { Within BLOCK_PAISE figures }
    ensures { (k : ℕ) → slice_index_or sums.new k no_amounts ≡ plus (slice_index_or sums.old k no_amounts) (amounts_at (shares figures.money (held weights.now)) (shares figures.energy (held weights.now)) k) }
{
    let mut money = weights.splitter(figures.money);
    let mut energy = weights.splitter(figures.energy);
    // By number, since a proof knows nothing of the sums after a walk through `iter_mut().zip(..)`.
    for (k, &weight) in weights.each().iter().enumerate() {
        let share = Amounts {
            money: money.share_of(weight),
            energy: energy.share_of(weight),
        };
        add_to(sums, k, share);
    }
}

/// Puts a generator's sums into its account, if the page goes so far.
fn post_one(accounts: &mut [Account], generator: usize, sums: Amounts)
    ensures there { generator < length accounts.old → accounts.new ≡ slice_set accounts.old generator (with_amounts sums (get_or accounts.old generator no_account)) }
    ensures past { length accounts.old ≤ generator → accounts.new ≡ accounts.old }
{
    // No `get_mut`, since a proof knows nothing of the accounts after a write through it.
    if generator < accounts.len() {
        accounts[generator].post(sums);
    }
}

/// Puts a day's sums into the accounts of a station's generators, as far as the page goes.
fn post_sums(members: Members, sums: &[Amounts; GENERATORS], accounts: &mut [Account])
    ensures { accounts.new ≡ changed members.first members.count (with_sums sums.now) accounts.old }
{
    for (k, own) in sums[..members.count()].iter().enumerate() {
        post_one(accounts, members.first() + k, *own);
    }
}

impl DaySums {
    /// Posts the day: the account of each of the station's generators becomes its sums, whatever stood there before.
    pub fn post(&self, accounts: &mut [Account])
        ensures { (d : StationDay) → SumsOf d self.now → Posted d accounts.old accounts.new }
    {
        post_sums(self.members, &self.each, accounts);
    }
}

impl<T: Tariff, K: Key> Day<'_, T, K> {
    /// The charges of so many blocks from the first on added, and each generator's shares of them and of the deviations.
    fn sums_to(&self, blocks: u8) -> DaySums
        requires { blocks ≤ BLOCKS }
        ensures sums { SumsTo (the_day T.Tariff K.Key self.now) blocks result }
        ensures most { unsigned_abs result.charges ≤ blocks * BLOCK_PAISE }
    {
        let mut charges = 0;
        let mut each = [Amounts::default(); GENERATORS];
        let mut all = ArrayVec::new();
        let mut room = ArrayVec::new();
        for block in 0..blocks {
            let (figures, weights) = self.weighed(block, &mut all, &mut room);
            charges += figures.money;
            add_shares(&mut each, figures, &weights);
        }
        DaySums {
            members: self.members,
            charges,
            each,
        }
    }

    /// The charges of the 96 blocks added, and each generator's shares of them and of the deviations, which add up to them.
    pub fn sums(&self) -> DaySums
        ensures sums { SumsOf (the_day T.Tariff K.Key self.now) result }
        ensures most { unsigned_abs result.charges ≤ DAY_PAISE }
    {
        self.sums_to(BLOCKS as u8)
    }
}

/// What is posted does not depend on the money and the energy that stood in the accounts before.
pub fn posted_afresh()
    ensures { Afresh }
{}
