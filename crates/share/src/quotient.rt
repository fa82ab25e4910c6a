//! Division by the same number again and again.
ghost use Rattle.std.specs.Prelude.{◌≡◌, ◌/◌, ◌<◌};

/// What a number is multiplied by to guess its quotient by `total`: 2^64 / `total`, rounded up.
pub(crate) fn inverse_of(total: u64) -> u64
    requires { 0 < total }
{
    (u64::MAX / total).saturating_add(1)
}

/// `n / total`, rounded down. It is guessed by a multiplication, and the guess is tried,
/// so any inverse gives the quotient. One from `inverse_of` hardly ever guesses wrong.
#[tactic(auto, using(crate::proofs::Quotients::guessed))]
pub(crate) fn quotient(n: u64, total: u64, inverse: u64) -> u64
    requires { 0 < total }
    ensures { result ≡ n / total }
{
    let guess = ((u128::from(n) * u128::from(inverse)) >> 64) as u64;
    match guess.checked_mul(total) {
        Some(near) if near <= n && n - near < total => guess,
        _ => n / total,
    }
}
