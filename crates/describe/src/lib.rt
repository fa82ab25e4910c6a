//! Says in words what a line asks for, or why it is refused.
#![tactic(auto)]

use lines::lists::{Lists, Room};
use lines::read::{read_call, read_opening};
use std::alloc::{AllocError, Global};
use std::fmt;
use units::call::{Parts, Value};
use units::fault::Fault;

/// What the line asks for, as a call or as an opening; or its refusal, with where it stops being a form.
pub fn describe_line(heap: Global, line: &[u8]) -> Result<String, AllocError> {
    match read_call(line, &mut Room::new()) {
        Ok(call) => format!(in heap; "{}", Asked(call.parts())),
        Err(Fault::UnknownHead) => describe_opening(heap, line),
        Err(fault) => format!(in heap; "{}", Refused { fault, line }),
    }
}

/// The same of a line that is no call. It stands apart, since a function lays out its locals where
/// it begins, and the lists of an opening are long.
#[inline(never)]
fn describe_opening(heap: Global, line: &[u8]) -> Result<String, AllocError> {
    match read_opening(line, &mut Lists::new()) {
        Ok(opening) => format!(in heap; "{}", Asked(opening.parts())),
        Err(fault) => format!(in heap; "{}", Refused { fault, line }),
    }
}

/// What a head asks for with its arguments.
#[derive(Clone, Copy)]
struct Asked<'a>(Parts<'a>);

impl fmt::Display for Asked<'_> {
    fn fmt<W: fmt::Write>(&self, f: &mut fmt::Formatter<W>) -> fmt::Result {
        let mut pieces = self.0.head.words().split("{}");
        f.write_str(pieces.next().unwrap_or(""))?;
        for value in self.0.given() {
            match *value {
                Value::Number(number) => write!(f, "{number}")?,
                Value::List(numbers) => write!(f, "{numbers:?}")?,
            }
            f.write_str(pieces.next().unwrap_or(""))?;
        }
        Ok(())
    }
}

/// Why a line is refused.
#[derive(Clone, Copy)]
struct Refused<'a> {
    fault: Fault,
    line: &'a [u8],
}

impl fmt::Display for Refused<'_> {
    fn fmt<W: fmt::Write>(&self, f: &mut fmt::Formatter<W>) -> fmt::Result {
        let refusal = self.fault.refusal();
        let layer = refusal.layer;
        let number = refusal.number;
        let (p, q) = refusal.place;
        write!(
            f,
            "refused, layer {layer}, number {number}, place ({p}, {q}): "
        )?;
        match self.fault {
            Fault::NotForm { start } => {
                // They begin a form, so they are ASCII.
                let front = self.line.iter().take(start as usize);
                f.write_str("not a form behind `")?;
                for byte in front {
                    f.write_char(char::from(*byte))?;
                }
                f.write_char('`')
            }
            fault => write!(f, "{fault}"),
        }
    }
}
