//! The numbers of a station's generators.
ghost use Rattle.std.specs.Prelude.{◌≡◌, ◌+◌, MatchOption};
ghost use Rattle.posting.specs.Members.{Numbered};

use crate::members::Members;
use std::ops::Range;
use units::limits::{GENERATORS, MOST_BEFORE};

impl Members {
    /// `count` generators from number `first` on: 1 to 32 of them, the first numbered 480 at most. `None` for others.
    pub fn of(first: usize, count: usize) -> Option<Members>
        ensures { MatchOption result (Numbered first count → ⊥) (λ m. (m.first ≡ first) × (m.count ≡ count)) }
    {
        if first <= MOST_BEFORE && (1..=GENERATORS).contains(&count) {
            Some(Members { first, count })
        } else {
            None
        }
    }

    pub fn first(&self) -> usize
        ensures { result ≡ self.now.first }
    {
        self.first
    }

    pub fn count(&self) -> usize
        ensures { result ≡ self.now.count }
    {
        self.count
    }

    /// The first number past the last generator.
    pub fn end(&self) -> usize
        ensures { result ≡ self.now.first + self.now.count }
    {
        let Members { first, count } = *self;
        first + count
    }

    /// The numbers of the generators.
    pub fn numbers(&self) -> Range<usize>
        ensures start { result.start ≡ self.now.first }
        ensures end { result.end ≡ self.now.first + self.now.count }
    {
        let Members { first, count } = *self;
        first..first + count
    }
}
