//! What a generator gets of a day.
ghost use Rattle.std.specs.Prelude.{◌≡◌};
ghost use Rattle.posting.specs.Amounts.{opened_account, with_amounts};

use crate::amounts::Amounts;

/// A generator's installed power, in kW, and its shares of the day's charges, in paise, and of the day's deviations.
#[derive(Clone, Copy, PartialEq, Eq, Debug)]
pub struct Account {
    pub installed: u32,
    pub money: i64,
    pub energy: i64,
}

impl Account {
    /// The account of a generator to which no day is posted yet.
    pub fn new(installed: u32) -> Account
        ensures { result ≡ opened_account installed }
    {
        Account {
            installed,
            money: 0,
            energy: 0,
        }
    }

    /// Puts a day's sums in the place of what stood there.
    pub fn post(&mut self, sums: Amounts)
        ensures { self.new ≡ with_amounts sums self.old }
    {
        self.money = sums.money;
        self.energy = sums.energy;
    }
}
