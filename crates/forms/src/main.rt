//! Reads lines from standard input, and prints what each asks for, or why it is refused.
#![tactic(auto)]

use anyhow::Result;
use describe::describe_line;
use grammar::line::LONGEST_LINE;
use std::io;
use std::io::{BufRead, BufReader, ErrorKind};

/// How many bytes of a line are kept: one more than a line may have, so that a longer one is refused.
const MOST_KEPT: usize = LONGEST_LINE + 1;

fn main(rt: HostRuntime) -> Result<()> {
    let mut input = BufReader::new(rt.alloc(), rt.stdin())?;
    let mut line = Vec::new(rt.alloc());
    for _ in 0..u64::MAX {
        if !take_ahead(&rt, &mut input, &mut line)? {
            break;
        }
    }
    if line.is_empty() {
        return Ok(());
    }
    rt.println(describe_line(rt.alloc(), line.as_slice())?)?;
    Ok(())
}

/// Takes the bytes that are read ahead, or reads on where there are none: whether the input goes
/// on.
fn take_ahead<R: BufRead>(rt: &HostRuntime, input: &mut R, line: &mut Vec<u8>) -> io::Result<bool> {
    let ahead = match input.fill_buf() {
        Ok(ahead) => ahead,
        // A read that a signal cut short is made again.
        Err(e) if e.kind() == ErrorKind::Interrupted => return Ok(true),
        Err(e) => return Err(e),
    };
    let count = ahead.len();
    for byte in ahead {
        take(rt, line, *byte)?;
    }
    input.consume(count);
    Ok(0 < count)
}

/// Takes one more byte of a line, or prints what the line is where it ends.
fn take(rt: &HostRuntime, line: &mut Vec<u8>, byte: u8) -> io::Result<()> {
    if byte == b'\n' {
        rt.println(describe_line(rt.alloc(), line.as_slice())?)?;
        line.clear();
    } else if line.len() < MOST_KEPT {
        line.push(byte)?;
    }
    Ok(())
}
