//! Questions. They alter nothing.
ghost use Rattle.std.specs.Prelude.{◌≡◌, slice_index_or};
ghost use Rattle.book.specs.Questions.{account_answer, charge_answer, charge_refusal, IsProgress, share_answer, share_refusal, Stated};
ghost use Rattle.units.specs.Refusals.{Checks};
ghost use Rattle.book.specs.States.{day_at, generator_presence, no_station_of, nobody, presence, state};
ghost use Rattle.book.specs.Stations.{due_of};
ghost use Rattle.posting.specs.Days.{the_day};

use super::Book;
use crate::answers::{Progress, Statement};
use crate::checks::block_read;
use crate::station::ASK;
use posting::amounts::Amounts;
use posting::day::Day;
use posting::members::Members;
use posting::pages::Pages;
use share::key::Key;
use tariff::tariff::Tariff;
use units::fault::Fault;

impl<T: Tariff, K: Key> Book<T, K> {
    /// How far the day of station `t` has come.
    pub fn progress(&self, t: u64) -> Result<Progress, Fault>
        ensures { Checks (no_station_of self.now.stations.items t) (IsProgress (slice_index_or self.now.stations.items t nobody)) result }
    {
        let station = self.station(t)?;
        Ok(station.stage.progress())
    }

    /// What station `t` owes the pool, or the pool it where that is below zero.
    pub fn due(&self, t: u64) -> Result<i64, Fault>
        ensures { Checks (no_station_of self.now.stations.items t) (λ z. z ≡ due_of (slice_index_or self.now.stations.items t nobody).balance) result }
    {
        let station = self.station(t)?;
        Ok(station.balance.due())
    }

    /// What the pool holds.
    pub fn cash(&self) -> u64
        ensures { result ≡ self.now.cash }
    {
        self.cash
    }

    /// The day of station `t` on the pages.
    fn day_of<'a>(&'a self, pages: &'a Pages, station: u8, members: Members) -> Day<'a, T, K>
        ensures { the_day T.Tariff K.Key result ≡ day_at (state self.now pages.now) station members }
    {
        Day {
            tariff: &self.tariff,
            key: &self.key,
            station,
            members,
            pages,
        }
    }

    /// The charge of station `t` for the block, and its energy deviation.
    pub fn charge(&self, pages: &Pages, t: u64, block: u64) -> Result<Amounts, Fault>
        ensures { Checks (charge_refusal t block (state self.now pages.now)) (λ a. a ≡ charge_answer t block (state self.now pages.now)) result }
    {
        let station = self.admit(pages, t, ASK)?;
        block_read(&pages.readings, station.plant.members, block)?;
        let day = self.day_of(pages, t as u8, station.plant.members);
        Ok(day.figures(block as u8))
    }

    /// What the generator gets of its station's charge for the block, and of its energy deviation.
    pub fn share(&self, pages: &Pages, generator: u64, block: u64) -> Result<Amounts, Fault>
        ensures { Checks (share_refusal generator block (state self.now pages.now)) (λ a. a ≡ share_answer generator block (state self.now pages.now)) result }
    {
        let (t, station) = self.admit_generator(pages, generator, ASK)?;
        block_read(&pages.readings, station.plant.members, block)?;
        let day = self.day_of(pages, t as u8, station.plant.members);
        let shares = day.shares(block as u8);
        let k = generator as usize - station.plant.members.first();
        Ok(shares.each.as_slice()[k])
    }

    /// What stands on the generator's account.
    pub fn account(&self, pages: &Pages, generator: u64) -> Result<Amounts, Fault>
        ensures { Checks (generator_presence generator (state self.now pages.now)) (λ a. a ≡ account_answer generator (state self.now pages.now)) result }
    {
        self.find_generator(pages, generator)?;
        let account = pages.accounts[generator as usize];
        Ok(Amounts {
            money: account.money,
            energy: account.energy,
        })
    }

    /// The figures of the statement of station `t`.
    pub fn statement<'a>(&self, pages: &'a Pages, t: u64) -> Result<Statement<'a>, Fault>
        ensures { Checks (presence t (state self.now pages.now)) (Stated (T.Tariff.code_of self.now.tariff) t (state self.now pages.now)) result }
    {
        let station = self.find_station(pages, t)?;
        let accounts = pages.accounts.as_slice();
        Ok(Statement {
            station: t,
            code: self.tariff.code(),
            charges: station.balance.charges,
            due: station.balance.due(),
            cash: self.cash,
            first: station.plant.members.first(),
            accounts: &accounts[station.plant.members.numbers()],
        })
    }
}
