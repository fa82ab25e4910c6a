//! The front of bytes that were read ahead, as part of a line.
ghost use Rattle.std.specs.Prelude.{◌≡◌, ◌<◌, ◌≤◌, ◌++◌, ◌+◌, ◌-◌, length, min, take, IfOk};
ghost use Rattle.std.specs.Io.KnownBytes.{Consumes, IsAtEnd};
ghost use Rattle.whole_day.specs.Inputs.{cut, Took};

use arrayvec::ArrayVec;
use grammar::line::LONGEST_LINE;
use memchr::memchr;
use std::io;
use std::io::{ErrorKind, Read};

/// How many bytes of a line are kept: one more than a line may have, so that a longer one is refused.
const MOST_KEPT: usize = LONGEST_LINE + 1;

/// A line as far as it is kept.
pub(crate) type Line = ArrayVec<u8, MOST_KEPT>;

/// For how many of so many bytes the line has room.
fn fitting(line: &Line, count: usize) -> usize
    ensures fits { length line.now.items + result ≤ MOST_KEPT }
    ensures most { result ≡ min count (MOST_KEPT - length line.now.items) }
{
    count.min(MOST_KEPT - line.len())
}

/// The bytes are added to the line as far as it has room for them.
fn keep(line: &mut Line, bytes: &[u8])
    ensures { line.new.items ≡ cut (line.old.items ++ bytes.now) }
{
    let room = fitting(line, bytes.len());
    let _fits = line.try_extend_from_slice(&bytes[..room]);
}

/// Takes bytes up to a line feed, and it too: how many, and whether there was one.
#[tactic(auto, using(crate::proofs::Inputs::took_fed, crate::proofs::Inputs::took_all))]
pub(crate) fn take_line(ahead: &[u8], line: &mut Line) -> (usize, bool)
    ensures { Took ahead.now line.old.items line.new.items result.0 result.1 }
{
    match memchr(b'\n', ahead) {
        Some(at) => {
            keep(line, &ahead[..at]);
            (at + 1, true)
        }
        None => {
            keep(line, ahead);
            (ahead.len(), false)
        }
    }
}

/// Reads some bytes, none at the end alone; an interrupted read is made again.
pub(crate) fn read_some<R: Read>(reader: &mut R, bytes: &mut [u8]) -> io::Result<usize>
    ensures within { IfOk result (λ n. n ≤ length bytes.new) }
    ensures read { IfOk result (λ n. Consumes (R.remaining reader.old) (R.remaining reader.new)
        (take n bytes.new)) }
    ensures last { IfOk result (λ n. n ≡ 0 → 0 < length bytes.new
        → IsAtEnd (R.remaining reader.new)) }
{
    for _ in 0..u64::MAX {
        match reader.read(bytes) {
            Ok(length) => return Ok(length),
            Err(error) => {
                if error.kind() != ErrorKind::Interrupted {
                    return Err(error);
                }
            }
        }
    }
    Err(ErrorKind::Other.into())
}
