//! The amounts of a station's generators, from a list and as a list.
ghost use Rattle.share.specs.Amounts.{listed};
ghost use Rattle.std.specs.Prelude.{◌≡◌};

use crate::amounts::{Amounts, GeneratorAmounts};
use arrayvec::ArrayVec;
use units::limits::GENERATORS;

impl GeneratorAmounts {
    /// These amounts, in their order.
    pub fn of(amounts: &ArrayVec<Amounts, GENERATORS>) -> GeneratorAmounts
        ensures { listed result ≡ amounts.now.items }
    {
        let count = amounts.len();
        let mut each = [Amounts::default(); GENERATORS];
        each[..count].copy_from_slice(amounts);
        GeneratorAmounts { each, count }
    }

    /// The amounts, the first generator's first.
    pub fn as_slice(&self) -> &[Amounts]
        ensures { result.now ≡ listed self.now }
    {
        &self.each[..self.count]
    }
}
