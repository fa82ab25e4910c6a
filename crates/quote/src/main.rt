//! The quote for a block before its schedule is filed or revised: what it will cost, and who bears it.
#![tactic(auto)]

use quoting::answer::answer;
use std::io;
use std::process::ExitCode;

fn quote(rt: &HostRuntime) -> anyhow::Result<()> {
    let text = io::read_to_string(rt.alloc(), rt.stdin())?;
    let quotation = answer(text.as_str())?;
    print!(rt; "{quotation}")?;
    Ok(())
}

/// A request that is refused gets one line on standard error, and status 1.
fn main(rt: HostRuntime) -> io::Result<ExitCode> {
    match quote(&rt) {
        Ok(()) => Ok(ExitCode::SUCCESS),
        Err(error) => {
            eprintln!(rt; "{error}")?;
            Ok(ExitCode::FAILURE)
        }
    }
}
