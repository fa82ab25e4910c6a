//! The calls that a book takes, as values, and their heads and arguments.
ghost use Rattle.std.specs.Prelude.{◌≡◌, map, length, take, slice_index_or, IsSomeAnd};
ghost use Rattle.units.specs.Heads.{sorts};
ghost use Rattle.units.specs.Calls.{list_in, number_in, one, padded, value_of};
ghost use Rattle.units.specs.Calls.{opening_said, parts_said, said, IsCallOf};

use crate::each_call;
use crate::head::Head;
use std::array;

/// The most arguments that a head takes.
pub const MOST_ARGUMENTS: usize = 5;

/// What opens a book: a kind and a number of generators for each station, and each generator's installed power.
#[derive(Clone, Copy, Debug)]
pub struct Opening<'a> {
    pub kinds: &'a [u64],
    pub counts: &'a [u64],
    pub installed: &'a [u64],
}

/// A call on an open book.
#[derive(Clone, Copy, Debug)]
pub enum Call<'a> {
    /// A schedule for the blocks `from` to `to`.
    File {
        station: u64,
        from: u64,
        to: u64,
        kw: u64,
    },
    /// A capacity for the blocks `from` to `to`.
    Declare {
        generator: u64,
        from: u64,
        to: u64,
        kw: u64,
    },
    /// The schedule is complete.
    Issue {
        station: u64,
    },
    /// Revision `number`, with notice in block `notice`, of the blocks from `notice + 3` on.
    Revise {
        station: u64,
        number: u64,
        notice: u64,
        values: &'a [u64],
    },
    /// The day is over.
    Close {
        station: u64,
    },
    /// A reading for the blocks `from` to `to`.
    Read {
        generator: u64,
        from: u64,
        to: u64,
        kw: u64,
    },
    /// Charges and shares are posted.
    Settle {
        station: u64,
    },
    /// A reading is replaced, and the station's accounts follow.
    Correct {
        generator: u64,
        block: u64,
        kw: u64,
    },
    /// The station pays into the pool.
    Pay {
        station: u64,
        amount: u64,
    },
    /// The station draws from the pool.
    Draw {
        station: u64,
        amount: u64,
    },
}

/// An argument: a number, or a list of numbers.
#[derive(Clone, Copy, Debug)]
pub enum Value<'a> {
    Number(u64),
    List(&'a [u64]),
}

impl<'a> Value<'a> {
    /// The number that it is, or 0.
    pub fn number(self) -> u64
        ensures { result ≡ number_in (value_of self.entry) }
    {
        match self {
            Value::Number(number) => number,
            Value::List(_) => 0,
        }
    }

    /// The numbers of the list that it is, or none.
    pub fn list(self) -> &'a [u64]
        ensures { result.now ≡ list_in (value_of self.entry) }
    {
        match self {
            Value::Number(_) => &[],
            Value::List(numbers) => numbers,
        }
    }
}

/// A head, and its arguments in front of what is none.
#[derive(Clone, Copy, Debug)]
pub struct Parts<'a> {
    pub head: Head,
    pub values: [Value<'a>; MOST_ARGUMENTS],
}

/// The parts of a call.
macro_rules! taken_apart {
    ($call:expr; $($name:ident $method:ident $letters:literal ($($field:ident $sort:ident),*) $words:literal;)*) => {
        match $call {
            $(Call::$name { $($field),* } => told(Head::$name, &[$(Value::$sort($field)),*]),)*
        }
    };
}

/// What a value is of a sort.
macro_rules! taken {
    (Number $value:ident) => {
        $value.number()
    };
    (List $value:ident) => {
        $value.list()
    };
}

/// The call of parts, if their head is a call's.
macro_rules! made {
    ($parts:expr; $($name:ident $method:ident $letters:literal ($($field:ident $sort:ident),*) $words:literal;)*) => {
        match $parts.head {
            $(Head::$name => {
                let [$($field,)* ..] = $parts.values;
                Some(Call::$name { $($field: taken!($sort $field)),* })
            })*
            Head::Open => None,
        }
    };
}

impl<'a> Call<'a> {
    /// Its head and its arguments.
    pub fn parts(self) -> Parts<'a>
        ensures { parts_said result ≡ said self.entry }
    {
        each_call!(taken_apart, self)
    }

    /// The call with this head and these arguments: 0 for a number that is none, and no numbers for a list that is none.
    /// There is none with the head of an opening.
    pub fn from_parts(parts: Parts<'a>) -> Option<Call<'a>>
        ensures { IsCallOf parts.entry.head (map value_of parts.entry.values) result }
    {
        each_call!(made, parts)
    }
}

/// A call that is taken apart and made again is the same.
pub fn parts_make_the_call_again(call: Call) -> Option<Call>
    ensures { IsSomeAnd result (λ c. said c ≡ said call.entry) }
{
    Call::from_parts(call.parts())
}

/// The value at this place, or 0.
fn place<'a>(values: &[Value<'a>], i: usize) -> Value<'a>
    ensures { value_of result ≡ slice_index_or (map value_of values.now) i (one 0) }
{
    values.get(i).copied().unwrap_or(Value::Number(0))
}

/// A head with these arguments.
fn told<'a>(head: Head, values: &[Value<'a>]) -> Parts<'a>
    ensures head { result.head ≡ head }
    ensures values { map value_of result.values ≡ padded MOST_ARGUMENTS (map value_of values.now) }
{
    Parts {
        head,
        values: array::from_fn(|i| place(values, i)),
    }
}

impl<'a> Opening<'a> {
    /// Its head and its arguments.
    pub fn parts(self) -> Parts<'a>
        ensures { parts_said result ≡ opening_said self.entry }
    {
        told(
            Head::Open,
            &[
                Value::List(self.kinds),
                Value::List(self.counts),
                Value::List(self.installed),
            ],
        )
    }
}

impl<'a> Parts<'a> {
    /// The arguments.
    pub fn given(&self) -> &[Value<'a>]
        ensures { result.now ≡ take (length (sorts self.now.head)) self.now.values }
    {
        &self.values[0..self.head.sorts().len()]
    }
}
