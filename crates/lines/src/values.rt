//! What the arguments of a form say.
ghost use Rattle.std.specs.Prelude.{◌≡◌, ◌≤◌, [], map, length, MatchOption};
ghost use Rattle.std.specs.List.{All};
ghost use Rattle.units.specs.Calls.{list_in, number_in, opening_said, padded, value_of, with_values};
ghost use Rattle.units.specs.declared.head.Head.TheVariants.{Open};
ghost use Rattle.grammar.specs.Calls.{read_on, pieces};
ghost use Rattle.grammar.specs.Grammar.{Numeral};
ghost use Rattle.lines.specs.Arguments.{call_values, first_list, is_list, said_at, values_of, with_list};

use super::form::Parts;
use super::lists::{Lists, Room};
use arrayvec::ArrayVec;
use grammar::line::MOST_NUMBERS;
use std::array;
use tokens::token::Part;
use units::call::{self, MOST_ARGUMENTS, Opening, Value};
use units::head::Head;

/// The number that the digits write.
fn value(digits: &[u8]) -> u64
    requires { Numeral digits.now }
    ensures { result ≡ read_on 0 digits.now }
{
    digits.iter().fold(0, |n, d| 10 * n + u64::from(*d - b'0'))
}

/// The numbers that stand with one space between, in this room.
fn values<'r>(numbers: &[u8], room: &'r mut Room) -> &'r [u64]
    requires numerals { All Numeral (pieces [] numbers.now) }
    requires few { length (pieces [] numbers.now) ≤ MOST_NUMBERS }
    ensures { result.now ≡ map (read_on 0) (pieces [] numbers.now) }
{
    let values = room.numbers.insert(ArrayVec::new());
    // There is room for all of them.
    let _added = values.extend(numbers.split(|b| *b == b' ').map(value));
    values.as_slice()
}

fn is_list(part: Part) -> bool
    ensures { result ≡ is_list part.entry }
{
    matches!(part, Part::List(_))
}

/// The place of the first list, if there is one.
fn place_of_list(args: &[Part]) -> Option<usize>
    ensures { MatchOption result (first_list (values_of args.now) ≡ [])
        (λ place. first_list (values_of args.now) ≡ list_in (said_at args.now place)) }
{
    args.iter().position(|part| is_list(*part))
}

impl Parts<'_> {
    /// The number at this place: 0 where there is none.
    fn number(&self, place: usize) -> u64
        ensures { result ≡ number_in (said_at self.now.args.items place) }
    {
        match self.args.get(place) {
            Some(Part::Number(digits)) => value(digits),
            _ => 0,
        }
    }

    /// The numbers of the list at this place, in this room: none where there is no list.
    fn list<'r>(&self, place: usize, room: &'r mut Room) -> &'r [u64]
        ensures { result.now ≡ list_in (said_at self.now.args.items place) }
    {
        match self.args.get(place) {
            Some(Part::List(numbers)) => values(numbers, room),
            _ => &[],
        }
    }

    /// The numbers of the first list among the arguments, in this room: none where there is no list.
    fn first_list<'r>(&self, room: &'r mut Room) -> &'r [u64]
        ensures { result.now ≡ first_list (values_of self.now.args.items) }
    {
        match place_of_list(&self.args) {
            Some(place) => self.list(place, room),
            None => &[],
        }
    }

    /// What the argument at this place says, with these numbers if it is a list: 0 where there is none.
    fn value<'r>(&self, place: usize, list: &'r [u64]) -> Value<'r>
        ensures { value_of result ≡ with_list list.now (said_at self.now.args.items place) }
    {
        match self.args.get(place) {
            Some(Part::List(_)) => Value::List(list),
            _ => Value::Number(self.number(place)),
        }
    }

    /// The head of a call with what its arguments say. The room is the first list's: no call has a second one.
    #[tactic(auto, using(crate::proofs::Taking::value_at))]
    pub(crate) fn call<'r>(&self, head: Head, room: &'r mut Room) -> call::Parts<'r>
        ensures head { result.head ≡ head }
        ensures values { map value_of result.values
            ≡ padded MOST_ARGUMENTS (call_values (values_of self.now.args.items)) }
    {
        let list = self.first_list(room);
        call::Parts {
            head,
            values: array::from_fn(|place| self.value(place, list)),
        }
    }

    /// The opening with these arguments.
    #[tactic(auto, using(crate::proofs::Taking::value_at))]
    pub(crate) fn opening<'r>(&self, lists: &'r mut Lists) -> Opening<'r>
        ensures { opening_said result ≡ with_values Open (values_of self.now.args.items) }
    {
        let Lists {
            kinds,
            counts,
            installed,
        } = lists;
        Opening {
            kinds: self.list(0, kinds),
            counts: self.list(1, counts),
            installed: self.list(2, installed),
        }
    }
}
