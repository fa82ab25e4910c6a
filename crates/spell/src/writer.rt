//! Writes texts on a page, each behind the one before it.
//!
//! What reaches beyond the page's end is counted and not written, so an empty page measures a text. Places stay below
//! 2^32, so that no sum of them wraps.
ghost use Rattle.std.specs.Prelude.{◌≡◌, ◌+◌, ◌*◌, [], ◌∷◌, ◌++◌, map, length, decimal};
ghost use Rattle.grammar.specs.Grammar.{spaced};
ghost use Rattle.spell.specs.Pages.{HasRoom, Writes, after_spaces};
ghost use Rattle.spell.specs.Words.{text_of, line_text, room, rooms, line_room};

use crate::words::Word;
use itoa::{Buffer, Integer};

/// Stands at a place of a page.
#[derive(Drop)]
pub struct Writer<'a> {
    page: &'a mut [u8],
    at: usize,
}

#[tactic(auto, using(crate::proofs::Texts::texts))]
impl<'a> Writer<'a> {
    /// A writer that stands at the front of the page.
    pub fn new(page: &'a mut [u8]) -> Writer<'a>
        ensures same { result.page.ghost_name ≡ page.entry.ghost_name }
        ensures page { result.page.now ≡ page.old }
        ensures at { result.at ≡ 0 }
    {
        Writer { page, at: 0 }
    }

    /// How many bytes were written or counted.
    pub fn place(&self) -> usize
        ensures { result ≡ self.now.at }
    {
        self.at
    }

    /// One byte.
    fn put(&mut self, byte: u8)
        requires { HasRoom 1 self.old }
        ensures { Writes (byte ∷ []) 1 self.old self.new }
    {
        if self.at < self.page.len() {
            self.page[self.at] = byte;
        }
        self.at += 1;
    }

    /// The bytes as they are.
    fn write(&mut self, text: &[u8])
        requires { HasRoom (length text.now) self.old }
        ensures { Writes text.now (length text.now) self.old self.new }
    {
        for byte in text {
            self.put(*byte);
        }
    }

    /// The digits of a number, with a minus below zero.
    fn number<I: Integer>(&mut self, n: I)
        requires { HasRoom I.MAX_STR_LEN self.old }
        ensures { Writes (I.text n) I.MAX_STR_LEN self.old self.new }
    {
        let mut digits = Buffer::new();
        self.write(digits.format(n).as_bytes());
    }

    /// Numbers with one space between.
    fn numbers(&mut self, ns: &[u64])
        requires { HasRoom (21 * length ns.now) self.old }
        ensures { Writes (spaced (map decimal ns.now)) (21 * length ns.now) self.old self.new }
    {
        if let [first, rest @ ..] = ns {
            self.number(*first);
            for n in rest {
                self.put(b' ');
                self.number(*n);
            }
        }
    }

    /// A word, without a space before it.
    fn word(&mut self, word: Word)
        requires { HasRoom (room word) self.old }
        ensures { Writes (text_of word.entry) (room word.entry) self.old self.new }
    {
        match word {
            Word::Number(n) => self.number(n),
            Word::Amount(z) => self.number(z),
            Word::List(ns) => {
                self.put(b'(');
                self.numbers(ns);
                self.put(b')');
            }
        }
    }

    /// Each word after a space.
    fn words(&mut self, words: &[Word])
        requires { HasRoom (rooms words.now) self.old }
        ensures { Writes (after_spaces (map text_of words.now)) (rooms words.now) self.old self.new }
    {
        for word in words {
            self.put(b' ');
            self.word(*word);
        }
    }

    /// A head and its words, in brackets.
    pub fn line(&mut self, head: &[u8], words: &[Word])
        requires { HasRoom (line_room head.now words.now) self.old }
        ensures { Writes (line_text head.now words.now) (line_room head.now words.now) self.old self.new }
    {
        self.put(b'(');
        self.write(head);
        self.words(words);
        self.put(b')');
    }

    /// A line and a line feed.
    pub fn fed_line(&mut self, head: &[u8], words: &[Word])
        requires { HasRoom (line_room head.now words.now + 1) self.old }
        ensures { Writes (line_text head.now words.now ++ 10 ∷ []) (line_room head.now words.now + 1) self.old self.new }
    {
        self.line(head, words);
        self.put(b'\n');
    }
}
