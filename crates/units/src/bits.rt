//! Sets of small numbers, as of the blocks of a day.
ghost use Rattle.std.specs.Prelude.{◌≡◌, ℕ, ◌&&◌, ◌||◌, ◌==◌, nat_le};
ghost use Rattle.units.specs.Bits.{has, with_span, count_of, first_absent_of, last_of};

/// One more than the largest number of a set.
const SIZE: u8 = 128;

/// A set of numbers from 0 to 127: the number n is in it where the bit n is set.
#[derive(Clone, Copy, Debug)]
pub struct BitSet {
    bits: u128,
}

/// The numbers of a set are the places of its ones.
fn count_in(bits: u128) -> u32
    ensures { result ≡ count_of bits }
{
    bits.count_ones()
}

/// The ones from the place 0 on end at the first number that is absent.
fn first_absent_in(bits: u128) -> u32
    ensures { result ≡ first_absent_of bits }
{
    bits.trailing_ones()
}

/// The zeros from the place 127 down end at the largest number; in an empty set all 128 are zeros.
fn last_in(bits: u128) -> Option<u32>
    ensures { result ≡ last_of bits }
{
    127u32.checked_sub(bits.leading_zeros())
}

impl BitSet {
    /// The empty set.
    pub fn new() -> BitSet
        ensures { result.bits ≡ 0 }
    {
        BitSet { bits: 0 }
    }

    /// Whether the number is in the set.
    pub fn contains(&self, n: u8) -> bool
        ensures { result ≡ has self.now.bits n }
    {
        let bits = self.bits;
        n < SIZE && (bits >> n) % 2 == 1
    }

    /// Puts the number into the set; one above 127 changes nothing.
    pub fn insert(&mut self, n: u8)
        ensures value { self.new.bits ≡ with_span self.old.bits n n }
        ensures members { (k : ℕ) → has self.new.bits k ≡ (has self.old.bits k || (nat_le n 127 && k == n)) }
    {
        self.insert_range(n, n);
    }

    /// Puts the numbers from `from` to `to` into the set; nothing where they run backward or past 127.
    pub fn insert_range(&mut self, from: u8, to: u8)
        ensures value { self.new.bits ≡ with_span self.old.bits from to }
        ensures members { (k : ℕ) → has self.new.bits k ≡ (has self.old.bits k || (nat_le to 127 && (nat_le from k && nat_le k to))) }
    {
        if from <= to && to < SIZE {
            let ones = u128::MAX >> (127 - (to - from));
            self.bits |= ones << from;
        }
    }

    /// How many numbers are in the set.
    pub fn count(&self) -> u32
        ensures { result ≡ count_of self.now.bits }
    {
        count_in(self.bits)
    }

    /// The least number that is not in the set; 128 where all are.
    pub fn first_absent(&self) -> u32
        ensures { result ≡ first_absent_of self.now.bits }
    {
        first_absent_in(self.bits)
    }

    /// The largest number in the set.
    pub fn last(&self) -> Option<u32>
        ensures { result ≡ last_of self.now.bits }
    {
        last_in(self.bits)
    }
}
