//! A line's words, and the numbers among them.
ghost use Rattle.quoting.specs.Words.{FirstWords, number_in, number_of};
ghost use Rattle.std.specs.Prelude.{◌≡◌, ◌<◌, ◌≤◌, [], length, MatchResult, ◌≢◌, ◌==◌, slice_index_or};
ghost use Rattle.quoting.specs.declared.complaint.Cause.TheVariants as cause;

use crate::complaint::Cause;
use crate::words::{MOST, Words};
use arrayvec::ArrayVec;

/// A number in digits alone. One that does not fit is taken as the largest that does, which is above every limit.
fn number(word: &str) -> Option<u32>
    ensures { result ≡ number_of word.now }
{
    if word.is_empty() {
        return None;
    }
    let mut value = 0u32;
    for digit in word.as_bytes() {
        if !digit.is_ascii_digit() {
            return None;
        }
        value = value
            .saturating_mul(10)
            .saturating_add(u32::from(*digit - b'0'));
    }
    Some(value)
}

impl<'a> Words<'a> {
    #[tactic(auto, using(crate::proofs::Spacing::spaced_push, std::proofs::lemmas::List::map_push))]
    pub fn of(line: &'a str) -> Words<'a>
        ensures { FirstWords line.now result }
    {
        let mut each = ArrayVec::new();
        for word in line.split_whitespace().take(MOST) {
            each.push(word);
        }
        Words { each }
    }

    pub fn is_empty(&self) -> bool
        ensures { result ≡ (length self.now == 0) }
    {
        self.each.is_empty()
    }

    /// The word at a place counted from 0, or an empty text.
    pub fn at(&self, place: usize) -> &'a str
        ensures { result.now ≡ slice_index_or self.now place [] }
    {
        self.each.get(place).copied().unwrap_or_default()
    }

    /// Refuses a line that has another number of words.
    pub fn expect(&self, needed: usize) -> Result<(), Cause>
        ensures { MatchResult result (λ _. length self.now ≡ needed) (λ e. (length self.now ≢ needed) × (e ≡ cause.WordCount needed)) }
    {
        if self.each.len() != needed {
            return Err(Cause::WordCount { needed });
        }
        Ok(())
    }

    /// The number at a place counted from 0.
    pub fn number_at(&self, place: usize) -> Result<u32, Cause>
        requires { place < 5 }
        ensures { result ≡ number_in self.now place }
    {
        number(self.at(place)).ok_or(Cause::NotNumber { place: place + 1 })
    }
}
