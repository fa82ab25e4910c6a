//! Calls on money.
ghost use Rattle.book.specs.Calls.{drawing, Makes, payment};

use super::Book;
use crate::checks::sound_amount;
use posting::pages::Pages;
use share::key::Key;
use tariff::tariff::Tariff;
use units::fault::Fault;
use units::limits::MOST_CASH;

impl<T: Tariff, K: Key> Book<T, K> {
    /// Station `t` pays into the pool.
    pub fn pay(&mut self, pages: &mut Pages, t: u64, amount: u64) -> Result<(), Fault>
        ensures { Makes (payment t amount) self.old pages.old self.new pages.new result }
    {
        self.find_station(pages, t)?;
        sound_amount(t, amount)?;
        let cash = self.cash + amount;
        if cash > MOST_CASH {
            return Err(Fault::FullCash {
                station: t,
                cash: self.cash,
            });
        }
        self.stations[t as usize].balance.pay(amount);
        self.cash = cash;
        Ok(())
    }

    /// Station `t` draws from the pool.
    pub fn draw(&mut self, pages: &mut Pages, t: u64, amount: u64) -> Result<(), Fault>
        ensures { Makes (drawing t amount) self.old pages.old self.new pages.new result }
    {
        let station = self.find_station(pages, t)?;
        sound_amount(t, amount)?;
        let available = station.balance.available();
        if amount > available {
            return Err(Fault::DrawAboveDue {
                station: t,
                available,
            });
        }
        if amount > self.cash {
            return Err(Fault::DrawAboveCash {
                station: t,
                cash: self.cash,
            });
        }
        self.stations[t as usize].balance.draw(amount);
        self.cash -= amount;
        Ok(())
    }
}
