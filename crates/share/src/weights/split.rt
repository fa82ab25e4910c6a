//! An amount split over weights.
ghost use Rattle.std.specs.Prelude.{◌≡◌, ◌≤◌, length, sum};
ghost use Rattle.share.specs.Amounts.{energies, moneys};
ghost use Rattle.share.specs.Held.{held};
ghost use Rattle.share.specs.Keys.{weights};
ghost use Rattle.share.specs.Loads.{loads};
ghost use Rattle.share.specs.Shares.{Fair, shares};

use crate::amounts::Amounts;
use crate::generators::Generators;
use crate::key::Key;
use crate::splitter::Splitter;
use crate::weights::Weights;
use arrayvec::ArrayVec;
use units::limits::GENERATORS;

impl<'a> Weights<'a> {
    /// The weights, in their order.
    pub fn each(&self) -> &'a [u64]
        ensures value { result.now ≡ held self.now }
        ensures few { length result.now ≤ GENERATORS }
    {
        self.each
    }

    /// An amount to be split over the weights one by one, with no list of the shares.
    pub fn splitter(&self, amount: i64) -> Splitter
        ensures amount { result.amount ≡ amount }
        ensures total { result.total ≡ sum (held self.now) }
        ensures sum { result.sum ≡ 0 }
    {
        Splitter::new(amount, self.total, self.inverse)
    }

    /// The share of each weight, in their order.
    /// The first shares together are the part of the amount that the first weights make of all,
    /// its magnitude rounded down (docs/RULES.md, "Keys and shares").
    pub fn split(&self, amount: i64) -> ArrayVec<i64, GENERATORS>
        ensures shares { result.items ≡ shares amount (held self.now) }
        ensures fair { Fair amount (held self.now) }
    {
        let mut splitter = self.splitter(amount);
        let mut shares = ArrayVec::new();
        for &weight in self.each() {
            shares.push(splitter.share_of(weight));
        }
        shares
    }

    /// Each weight's share of the money with its share of the energy, in their order.
    pub fn split_amounts(&self, amounts: Amounts) -> ArrayVec<Amounts, GENERATORS>
        ensures money { moneys result.items ≡ shares amounts.money (held self.now) }
        ensures energy { energies result.items ≡ shares amounts.energy (held self.now) }
        ensures fair { Fair amounts.money (held self.now) × Fair amounts.energy (held self.now) }
    {
        let mut money = self.splitter(amounts.money);
        let mut energy = self.splitter(amounts.energy);
        let mut each = ArrayVec::new();
        for &weight in self.each() {
            each.push(Amounts {
                money: money.share_of(weight),
                energy: energy.share_of(weight),
            });
        }
        each
    }
}

/// An amount split among a station's generators by any key: whatever the key, the shares are fair.
pub fn split_by<K: Key>(key: &K, generators: &Generators, amount: i64) -> ArrayVec<i64, GENERATORS>
    ensures shares { result.items
        ≡ shares amount (weights K.Key.weighs (loads generators.now.each.now)) }
    ensures fair { Fair amount (weights K.Key.weighs (loads generators.now.each.now)) }
{
    let mut room = ArrayVec::new();
    Weights::of(key, generators, &mut room).split(amount)
}
