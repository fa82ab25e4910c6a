//! Which arguments a form holds.
ghost use Rattle.std.specs.Prelude.{◌≡◌};
ghost use Rattle.spell.specs.Causes.{misfit};
ghost use Rattle.spell.specs.Words.{small, all_are_small, held_word};
ghost use Rattle.units.specs.Refusals.{Passes};

use crate::words::Word;
use grammar::line::MOST_NUMBERS;
use units::fault::Fault;

/// The first number of more than `MOST_DIGITS` digits, which are 13.
const TOO_LARGE: u64 = 10_000_000_000_000;

/// Whether the number has at most `MOST_DIGITS` digits.
fn is_small(n: u64) -> bool
    ensures { result ≡ small n }
{
    n < TOO_LARGE
}

/// Whether each number has at most `MOST_DIGITS` digits.
fn all_small(ns: &[u64]) -> bool
    ensures { result ≡ all_are_small ns.now }
{
    ns.iter().all(|n| is_small(*n))
}

/// Whether a form holds the word.
fn is_held(word: Word) -> bool
    ensures { result ≡ held_word word.entry }
{
    match word {
        Word::Number(n) => is_small(n),
        Word::Amount(_) => false,
        Word::List(ns) => !ns.is_empty() && ns.len() <= MOST_NUMBERS && all_small(ns),
    }
}

/// Refuses the first word that no form holds, by its position from 1.
pub fn all_held(words: &[Word]) -> Result<(), Fault>
    ensures { Passes (misfit held_word words.now) result }
{
    match words.iter().position(|word| !is_held(*word)) {
        Some(before) => Err(Fault::BadArgument {
            position: before as u64 + 1,
        }),
        None => Ok(()),
    }
}
