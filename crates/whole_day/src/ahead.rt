//! Lines, taken from bytes that are read ahead.
ghost use Rattle.std.specs.Prelude.{◌≤◌};
ghost use Rattle.whole_day.specs.declared.ahead.TheConstants.{AHEAD};

use crate::taking::{Line, read_some, take_line};
use std::io;
use std::io::{ErrorKind, Read, Write};

/// How many bytes are read ahead.
const AHEAD: usize = 64 * 1024;

/// Bytes that were read ahead: those from `at` to `end` are not taken yet.
#[derive(Drop)]
pub(crate) struct Ahead {
    bytes: [u8; AHEAD],
    at: usize,
    end: usize,
    ghost in_order: { at ≤ end },
    ghost within: { end ≤ AHEAD },
}

impl Ahead {
    ghost use Rattle.std.specs.Io.KnownBytes.{IsAtEnd, Keeps};
    ghost use Rattle.std.specs.Prelude.{◌≡◌, [], false, IfOk, OnOk};
    ghost use Rattle.whole_day.specs.Inputs.{ahead, left, NextLine, TookAhead};

    /// Nothing read yet.
    pub(crate) fn new() -> Ahead
        ensures { ahead result ≡ [] }
    {
        Ahead {
            bytes: [0; AHEAD],
            at: 0,
            end: 0,
        }
    }

    /// Reads on once all is taken, and writes out first what is held back: whether there is a byte.
    fn fill<R: Read, W: Write>(&mut self, reader: &mut R, writer: &mut W) -> io::Result<bool>
        ensures keeps { OnOk result (Keeps
            (left R.remaining self.old reader.old) (left R.remaining self.new reader.new)) }
        ensures last { IfOk result (λ some. some ≡ false
            → IsAtEnd (left R.remaining self.new reader.new)) }
        ensures held { OnOk result (Keeps (W.contents writer.old) (W.contents writer.new)) }
    {
        if self.at < self.end {
            return Ok(true);
        }
        writer.flush()?;
        self.at = 0;
        self.end = 0;
        self.end = read_some(reader, &mut self.bytes)?;
        Ok(0 < self.end)
    }

    /// Takes bytes up to a line feed, and it too: whether there was one.
    #[tactic(auto, using(crate::proofs::Inputs::took_ahead))]
    fn take(&mut self, line: &mut Line) -> bool
        ensures { TookAhead (ahead self.old) (ahead self.new) line.old.items line.new.items result }
    {
        let (taken, fed) = take_line(&self.bytes[self.at..self.end], line);
        self.at += taken;
        fed
    }

    /// The next line, without its line feed: whether it had one.
    pub(crate) fn next_line<R: Read, W: Write>(
        &mut self,
        reader: &mut R,
        writer: &mut W,
        line: &mut Line,
    ) -> io::Result<bool>
        ensures line { IfOk result (NextLine (left R.remaining self.old reader.old)
            (left R.remaining self.new reader.new) line.new.items) }
        ensures held { OnOk result (Keeps (W.contents writer.old) (W.contents writer.new)) }
    {
        line.clear();
        for _ in 0..u64::MAX {
            if !self.fill(reader, writer)? {
                return Ok(false);
            }
            if self.take(line) {
                return Ok(true);
            }
        }
        Err(ErrorKind::Other.into())
    }
}
