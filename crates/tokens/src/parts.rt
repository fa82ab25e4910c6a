//! Reads the words, numbers and lists at the front of what is left of a line.
ghost use Rattle.std.specs.Prelude.{◌≡◌, ℕ, ◌-◌, ◌<◌, false, List, ◌∷◌, MatchOption, MatchResult, ◌≢◌, slice_index};
ghost use Rattle.std.specs.Int.{is_in_range};
ghost use Rattle.tokens.specs.Pieces.{Run, Counted, Shut, NoList, Argued, NoArgument, Headed, NoHead};

use super::token::Part;
use grammar::line::{MOST_DIGITS, MOST_LETTERS, MOST_NUMBERS};

/// How many bytes at the front are from `low` to `high`, counting at most `most`.
fn run(rest: &[u8], low: u8, high: u8, most: usize) -> usize
    requires { 0 < low }
    ensures { Run low high most rest.now result }
{
    rest.iter()
        .take(most)
        .take_while(|b| (low..=high).contains(b))
        .count()
}

/// How many letters at the front belong to the word whose first letter stands before them.
fn more_letters(rest: &[u8]) -> usize
    ensures { Run 97 122 (MOST_LETTERS - 1) rest.now result }
{
    run(rest, b'a', b'z', MOST_LETTERS - 1)
}

/// How many digits at the front belong to the number whose first digit, 1 to 9, stands before them.
fn more_digits(rest: &[u8]) -> usize
    ensures { Run 48 57 (MOST_DIGITS - 1) rest.now result }
{
    run(rest, b'0', b'9', MOST_DIGITS - 1)
}

/// The number at the front, and what follows it.
pub fn number(rest: &[u8]) -> Option<(&[u8], &[u8])>
    ensures { MatchOption result (is_in_range 48 57 (slice_index rest.now 0) ≡ false) (λ p. Counted rest.now p.0.now p.1.now) }
{
    match rest {
        [b'0', tail @ ..] => Some((&rest[..1], tail)),
        [b'1'..=b'9', tail @ ..] => Some(rest.split_at(1 + more_digits(tail))),
        _ => None,
    }
}

/// What follows the space at the front: one space stands between the parts of a line.
pub fn past_space(rest: &[u8]) -> Option<&[u8]>
    ensures { MatchOption result ((tail : List ℕ) → rest.now ≢ 32 ∷ tail) (λ tail. rest.now ≡ 32 ∷ tail.now) }
{
    rest.strip_prefix(b" ")
}

/// How many bytes at the front are 1 to `most` numbers with one space between, before a closing bracket;
/// or what is left where they go wrong.
fn numbers(rest: &[u8], most: usize) -> Result<usize, &[u8]>
    requires { 0 < most }
    ensures { MatchResult result (Shut most rest.now) (λ left. NoList most rest.now left.now) }
{
    let (digits, after) = number(rest).ok_or(rest)?;
    if let [b')', ..] = after {
        return Ok(digits.len());
    }
    match past_space(after) {
        Some(tail) if most > 1 => Ok(digits.len() + 1 + numbers(tail, most - 1)?),
        _ => Err(after),
    }
}

/// How many bytes at the front are the numbers of a list; or what is left where they go wrong.
fn list(rest: &[u8]) -> Result<usize, &[u8]>
    ensures { MatchResult result (Shut MOST_NUMBERS rest.now) (λ left. NoList MOST_NUMBERS rest.now left.now) }
{
    numbers(rest, MOST_NUMBERS)
}

/// The number or the list at the front, and what follows it; or what is left where it goes wrong.
pub(crate) fn argument<'a>(rest: &'a [u8]) -> Result<(Part<'a>, &'a [u8]), &'a [u8]>
    ensures { MatchResult result (λ p. Argued rest.now p.0 p.1.now) (λ left. NoArgument rest.now left.now) }
{
    match rest {
        [b'(', tail @ ..] => {
            let n = list(tail)?;
            Ok((Part::List(&tail[0..n]), &tail[n + 1..]))
        }
        _ => match number(rest) {
            Some((digits, after)) => Ok((Part::Number(digits), after)),
            None => Err(rest),
        },
    }
}

/// The word after the bracket that a line begins with, and what follows it; or what is left where it goes wrong.
pub(crate) fn word(line: &[u8]) -> Result<(&[u8], &[u8]), &[u8]>
    ensures { MatchResult result (λ p. Headed line.now p.0.now p.1.now) (λ left. NoHead line.now left.now) }
{
    let [b'(', rest @ ..] = line else {
        return Err(line);
    };
    match rest {
        [b'a'..=b'z', tail @ ..] => Ok(rest.split_at(1 + more_letters(tail))),
        _ => Err(rest),
    }
}
