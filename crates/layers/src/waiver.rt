ghost use Rattle.layers.specs.Waivers.{waived};
ghost use Rattle.std.specs.Prelude.{◌≡◌};
ghost use Rattle.std.proofs.Common.{rules};

use tariff::query::Query;
use tariff::tariff::Tariff;
use units::bits::BitSet;

/// A tariff that charges nothing in the blocks of a grid disturbance. It changes no charge of a query outside the range.
#[derive(Clone, Copy, Drop)]
pub struct Waiver<T> {
    below: T,
    disturbed: BitSet,
}

impl<T: Tariff> Waiver<T> {
    /// A waiver over `below` for the disturbed blocks.
    pub fn new(below: T, disturbed: BitSet) -> Waiver<T>
        ensures { result ≡ record { below = below; disturbed = disturbed } }
    {
        Waiver { below, disturbed }
    }
}

impl<T: Tariff> Tariff for Waiver<T> {
    ghost charge_of = { λ t. waived t.disturbed.bits (T.Tariff.charge_of t.below) };

    ghost ceiling_of = { λ t. T.Tariff.ceiling_of t.below };

    ghost code_of = { λ t. T.Tariff.code_of t.below };

    ghost settled = { Prim.search rules };

    ghost bounded = { Prim.search rules };

    ghost capped = { Prim.search rules };

    ghost numbered = { Prim.search rules };

    fn charge(&self, query: Query) -> i64 {
        if query.is_in_range() && self.disturbed.contains(query.block) {
            0
        } else {
            self.below.charge(query)
        }
    }

    fn ceiling(&self) -> u32 {
        self.below.ceiling()
    }

    fn code(&self) -> u8 {
        self.below.code()
    }
}
