ghost use Rattle.std.specs.Prelude.{◌≡◌, ℕ, ◌*◌, ◌≤◌, ℤ, pos, unsigned_abs};
ghost use Rattle.tariff.specs.Charges.{magnitude};
ghost use Rattle.tariff.specs.Ranges.{IsInRange};
ghost use Rattle.tariff.specs.declared.query.Query.{Query};
ghost use Rattle.units.specs.declared.limits.TheConstants.{BLOCK_PAISE, HIGHEST_CEILING};

use crate::query::Query;

/// A rule that prices a station's deviation. A query changes nothing, and none is refused.
/// It promises the size of a charge only for a query in range, which each query of a station's day is.
pub trait Tariff {
    /// The charge in paise: positive where it is payable, negative where it is receivable.
    ghost charge_of: { Self → Query → ℤ };

    /// The most paise that a kW of deviation may cost or earn.
    ghost ceiling_of: { Self → ℕ };

    /// The number that the tariff goes by.
    ghost code_of: { Self → ℕ };

    /// The charge of a query, in paise.
    fn charge(&self, query: Query) -> i64
        ensures { result ≡ charge_of self.now query };

    /// The ceiling, in paise for a kW of deviation in a block.
    fn ceiling(&self) -> u32
        ensures { result ≡ ceiling_of self.now };

    /// The tariff's number.
    fn code(&self) -> u8
        ensures { result ≡ code_of self.now };

    /// A station that keeps its schedule owes nothing.
    ghost settled: { (t : Self) (q : Query) → IsInRange q → q.actual ≡ q.schedule
        → charge_of t q ≡ pos 0 };

    /// No kW of deviation costs or earns more than the ceiling.
    ghost bounded: { (t : Self) (q : Query) → IsInRange q
        → unsigned_abs (charge_of t q) ≤ ceiling_of t * magnitude q };

    /// A ceiling is at most 10,000 paise.
    ghost capped: { (t : Self) → ceiling_of t ≤ HIGHEST_CEILING };

    /// A code is a number from 1 to 99.
    ghost numbered: { (t : Self) → (1 ≤ code_of t) × (code_of t ≤ 99) };
}

/// The charge, with what the laws say of its size for a query in range: a day's charges fit an `i64`.
pub fn sized_charge<T: Tariff>(tariff: &T, query: Query) -> i64
    ensures value { result ≡ T.Tariff.charge_of tariff.now query }
    ensures bound { IsInRange query → unsigned_abs result ≤ HIGHEST_CEILING * magnitude query }
    ensures small { IsInRange query → unsigned_abs result ≤ BLOCK_PAISE }
{
    tariff.charge(query)
}
