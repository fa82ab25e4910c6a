//! The parts of a line.

/// A part of a line, by its bytes: the letters of a word, the digits of a number, or what stands between a list's brackets.
#[derive(Clone, Copy, Debug)]
pub enum Part<'a> {
    Word(&'a [u8]),
    Number(&'a [u8]),
    List(&'a [u8]),
}

impl<'a> Part<'a> {
    ghost use Rattle.std.specs.Prelude.{◌≡◌};
    ghost use Rattle.tokens.specs.Tokens.{text_of};

    /// Its letters, its digits, or what stands between its brackets.
    pub fn text(self) -> &'a [u8]
        ensures { result.now ≡ text_of self.entry }
    {
        match self {
            Part::Word(text) | Part::Number(text) | Part::List(text) => text,
        }
    }
}

/// A word of no letters.
impl Default for Part<'_> {
    ghost use Rattle.std.specs.Prelude.{◌≡◌, []};
    ghost use Rattle.tokens.specs.Tokens.{bytes_of};

    ghost is_default = { λ part. bytes_of part ≡ [] };

    fn default() -> Self {
        Part::Word(&[])
    }
}

/// A part, and how many bytes of the line stand before it.
#[derive(Clone, Copy, Debug)]
pub struct Token<'a> {
    pub part: Part<'a>,
    pub place: usize,
}
