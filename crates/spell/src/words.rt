//! What stands in a line behind its head.
ghost use Rattle.std.specs.Prelude.{◌≡◌, map};
ghost use Rattle.spell.specs.Spoken.{word_of};

use units::call::{MOST_ARGUMENTS, Value};

/// A word of a line.
#[derive(Clone, Copy, Debug)]
pub enum Word<'a> {
    Number(u64),
    Amount(i64),
    List(&'a [u64]),
}

impl<'a> Word<'a> {
    /// The word of an argument.
    pub fn of(value: Value<'a>) -> Word<'a>
        ensures { result ≡ word_of value.entry }
    {
        match value {
            Value::Number(number) => Word::Number(number),
            Value::List(numbers) => Word::List(numbers),
        }
    }

    /// The words of arguments.
    pub fn all_of(values: [Value<'a>; MOST_ARGUMENTS]) -> [Word<'a>; MOST_ARGUMENTS]
        ensures { result ≡ map word_of values.entry }
    {
        values.map(Word::of)
    }
}
