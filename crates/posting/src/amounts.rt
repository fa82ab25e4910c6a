//! Money and energy together.
ghost use Rattle.std.specs.Prelude.{◌≡◌};
ghost use Rattle.posting.specs.Amounts.{plus, Within};

pub use share::amounts::{Amounts, GeneratorAmounts};
use units::limits::{BLOCK_PAISE, DAY_PAISE};

/// Adds a block's share to the shares of the blocks before.
pub(crate) fn add(sum: &mut Amounts, share: Amounts)
    requires room { Within DAY_PAISE sum.old }
    requires small { Within BLOCK_PAISE share }
    ensures { sum.new ≡ plus sum.old share }
{
    sum.money += share.money;
    sum.energy += share.energy;
}
