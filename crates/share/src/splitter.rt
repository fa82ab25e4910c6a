//! An amount split over weights that come one by one.
ghost use Rattle.std.specs.Prelude.{◌≡◌, ◌+◌, ◌-◌, ◌*◌, ◌/◌, ◌<◌, ◌≤◌, min, unsigned_abs};
ghost use Rattle.share.specs.Shares.{next_share};

use crate::magnitude::{part_of, signed};

/// An amount that is split over weights: those so far have the sum `sum`, and all have `total`.
/// The shares so far together are `part`, under the amount's sign.
#[derive(Clone, Copy)]
pub struct Splitter {
    amount: i64,
    magnitude: u64,
    total: u64,
    /// What guesses a quotient by `total`.
    inverse: u64,
    sum: u64,
    part: u64,
    ghost size: { magnitude ≡ unsigned_abs amount },
    ghost some: { 0 < total },
    ghost inside: { sum ≤ total },
    ghost rounded: { part ≡ magnitude * sum / total },
}

impl Splitter {
    /// No weight yet.
    pub(crate) fn new(amount: i64, total: u64, inverse: u64) -> Splitter
        requires { 0 < total }
        ensures amount { result.amount ≡ amount }
        ensures total { result.total ≡ total }
        ensures sum { result.sum ≡ 0 }
    {
        Splitter {
            amount,
            magnitude: amount.unsigned_abs(),
            total,
            inverse,
            sum: 0,
            part: 0,
        }
    }

    /// The share of the weight that comes next; of one that passes the total, of what is left.
    #[tactic(auto, using(crate::proofs::Splits::step))]
    pub fn share_of(&mut self, weight: u64) -> i64
        ensures share { result ≡ next_share self.old.amount self.old.total self.old.sum
            (min weight (self.old.total - self.old.sum)) }
        ensures amount { self.new.amount ≡ self.old.amount }
        ensures total { self.new.total ≡ self.old.total }
        ensures sum { self.new.sum ≡ self.old.sum + min weight (self.old.total - self.old.sum) }
    {
        let sum = self.sum + weight.min(self.total - self.sum);
        let part = part_of(self.magnitude, sum, self.total, self.inverse);
        let share = signed(self.amount, part - self.part);
        self.sum = sum;
        self.part = part;
        share
    }
}
