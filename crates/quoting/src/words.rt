//! The words of a line.
mod splits;

ghost use Rattle.std.specs.Prelude.{ℕ, ◌≤◌, List, map, length};

use arrayvec::ArrayVec;
use std::marker::Model;

/// The most words that are read. No line takes as many.
const MOST: usize = 5;

/// The words of a line; of more than five, the first five.
#[derive(Drop)]
pub struct Words<'a> {
    each: ArrayVec<&'a str, MOST>,
}

/// A contract sees the words alone.
impl<'a> Model for Words<'a> {
    ghost Value = { List (List ℕ) };

    ghost view = { λ words. map (λ word. word.now) words.each.items };

    ghost invariant = { λ words. length words.each.items ≤ 5 };
}
