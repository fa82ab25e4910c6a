//! Amounts by magnitude and sign.
ghost use Rattle.std.specs.Prelude.{◌≡◌, ◌*◌, ◌/◌, ◌<◌, ◌≤◌, unsigned_abs};
ghost use Rattle.share.specs.Shares.{under};

use crate::quotient::quotient;

/// `magnitude * sum / total`, rounded down.
pub(crate) fn part_of(magnitude: u64, sum: u64, total: u64, inverse: u64) -> u64
    requires inside { sum ≤ total }
    requires some { 0 < total }
    ensures value { result ≡ magnitude * sum / total }
    ensures within { result ≤ magnitude }
{
    match magnitude.checked_mul(sum) {
        Some(product) => quotient(product, total, inverse),
        None => (u128::from(magnitude) * u128::from(sum) / u128::from(total)) as u64,
    }
}

/// A magnitude under the sign of an amount.
pub(crate) fn signed(amount: i64, magnitude: u64) -> i64
    requires { magnitude ≤ unsigned_abs amount }
    ensures { result ≡ under amount magnitude }
{
    if amount >= 0 {
        magnitude as i64
    } else {
        (-i128::from(magnitude)) as i64
    }
}
