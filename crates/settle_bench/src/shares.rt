//! What is reported of a generator.
ghost use Rattle.std.specs.Prelude.{◌≡◌};

use posting::amounts::Amounts;

/// What a generator gets of a day: of the charges, in paise, and of the deviations.
#[repr(C)]
#[derive(Clone, Copy)]
pub struct Shares {
    pub money: i64,
    pub energy: i64,
}

impl From<Amounts> for Shares {
    ghost from_gives = { λ amounts shares. shares ≡ record { money = amounts.money; energy = amounts.energy } };

    fn from(amounts: Amounts) -> Shares {
        let Amounts { money, energy } = amounts;
        Shares { money, energy }
    }
}
