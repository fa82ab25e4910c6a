//! Hands out the parts of a line one at a time.
ghost use Rattle.std.specs.Prelude.{◌≡◌, ◌-◌, ◌≤◌, length};
ghost use Rattle.tokens.specs.Ends.{Ends};
ghost use Rattle.tokens.specs.Pieces.{At, First, Next};

use super::parts::{argument, past_space, word};
use super::token::{Part, Token};
use units::fault::Fault;

/// What is left to read of a line.
#[derive(Drop)]
pub struct Reader<'a> {
    line: &'a [u8],
    rest: &'a [u8],
    ghost short: { length rest.now ≤ length line.now },
    ghost ends: { Ends line.now rest.now },
}

impl<'a> Reader<'a> {
    /// A reader that stands before the line.
    pub fn new(line: &'a [u8]) -> Reader<'a>
        ensures line { result.line.now ≡ line.now }
        ensures rest { result.rest.now ≡ line.now }
    {
        Reader { line, rest: line }
    }

    /// The word that the line begins with, after its bracket. A reader that refuses the line stays where it stands.
    pub fn word(&mut self) -> Result<Token<'a>, Fault>
        ensures line { self.new.line.now ≡ self.old.line.now }
        ensures first { First self.old.line.now self.old.rest.now result self.new.rest.now }
    {
        let (letters, after) = word(self.line).map_err(|left| not_form(self.line, left))?;
        self.rest = after;
        Ok(Token {
            part: Part::Word(letters),
            place: 1,
        })
    }

    /// The next argument, if the line does not end here. A reader that refuses the line, or has come to its end, stays
    /// where it stands.
    pub fn next(&mut self) -> Result<Option<Token<'a>>, Fault>
        ensures line { self.new.line.now ≡ self.old.line.now }
        ensures next { Next self.old.line.now self.old.rest.now result self.new.rest.now }
    {
        let Some(tail) = past_space(self.rest) else {
            return match self.rest {
                [b')'] => Ok(None),
                [b')', tail @ ..] => Err(not_form(self.line, tail)),
                _ => Err(not_form(self.line, self.rest)),
            };
        };
        let (part, after) = argument(tail).map_err(|left| not_form(self.line, left))?;
        self.rest = after;
        Ok(Some(Token {
            part,
            place: place_of(self.line, tail),
        }))
    }
}

/// How many bytes of the line stand before this rest of it.
const fn place_of(line: &[u8], rest: &[u8]) -> usize
    requires { length rest.now ≤ length line.now }
    ensures { result ≡ length line.now - length rest.now }
{
    line.len() - rest.len()
}

/// The refusal of a line that begins a form before this rest of it, and no form past its place.
const fn not_form(line: &[u8], rest: &[u8]) -> Fault
    requires { length rest.now ≤ length line.now }
    ensures { At line.now rest.now result }
{
    Fault::NotForm {
        start: place_of(line, rest) as u64,
    }
}
