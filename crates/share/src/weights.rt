//! Weights that an amount is split over.
mod gather;
mod split;

ghost use Rattle.std.specs.Prelude.{◌≡◌, ◌<◌, ◌≤◌, length, sum};
ghost use Rattle.units.specs.declared.limits.TheConstants.{GENERATORS};

pub use split::split_by;

/// At most 32 weights, in a list of another's. They add up to more than nothing and to less than
/// 2^64.
#[derive(Clone, Copy)]
pub struct Weights<'a> {
    each: &'a [u64],
    total: u64,
    /// What guesses a quotient by `total`.
    inverse: u64,
    ghost whole: { total ≡ sum each.now },
    ghost alive: { 0 < total },
    ghost few: { length each.now ≤ GENERATORS },
}
