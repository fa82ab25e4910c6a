//! What a station owes the pool, or the pool it.
ghost use Rattle.std.specs.Prelude.{◌≡◌, ◌≤◌};
ghost use Rattle.book.specs.Sound.{IsBounded};
ghost use Rattle.book.specs.Stations.{available, drawn, due_of, paid, settled_at};

use units::limits::MOST_AMOUNT;

#[derive(Clone, Copy)]
pub struct Balance {
    /// The charges of the day's blocks once they are posted, in paise.
    pub charges: i64,
    /// What was drawn less what was paid, in paise.
    pub net: i64,
}

impl Balance {
    /// The charges of the day's blocks stand.
    pub fn settle(&mut self, charges: i64)
        ensures { self.new ≡ settled_at charges self.old }
    {
        self.charges = charges;
    }

    // What follows wants a balance that is bounded. That is no fact of one station: how far it is behind is known only
    // from its book, since the nets of all stations and the cash balance.

    /// What the station owes the pool, or the pool it where that is below zero.
    pub fn due(&self) -> i64
        requires { IsBounded self.now }
        ensures { result ≡ due_of self.now }
    {
        self.charges + self.net
    }

    /// What the station may draw: minus its due where that is below zero.
    pub fn available(&self) -> u64
        requires { IsBounded self.now }
        ensures { result ≡ available self.now }
    {
        self.due().min(0).unsigned_abs()
    }

    pub fn pay(&mut self, amount: u64)
        requires bounded { IsBounded self.old }
        requires small { amount ≤ MOST_AMOUNT }
        ensures { self.new ≡ paid amount self.old }
    {
        self.net -= amount as i64;
    }

    pub fn draw(&mut self, amount: u64)
        requires bounded { IsBounded self.old }
        requires small { amount ≤ MOST_AMOUNT }
        ensures { self.new ≡ drawn amount self.old }
    {
        self.net += amount as i64;
    }
}
