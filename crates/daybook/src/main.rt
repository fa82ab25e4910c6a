//! Keeps one day's book: an opening and calls by lines on standard input, answers and statements on standard output.
#![tactic(auto)]

use anyhow::Result;
use book::Pages;
use share::key::UnitsKey;
use std::io::{BufWriter, Write};
use tariff::banded::Banded;
use whole_day::run;

fn main(rt: HostRuntime) -> Result<()> {
    let mut pages = Pages::new(rt.alloc(), 4, 32)?;
    let mut reader = rt.stdin();
    let mut writer = BufWriter::new(rt.alloc(), rt.stdout())?;
    run(
        Banded::From10,
        UnitsKey,
        &mut pages,
        &mut reader,
        &mut writer,
    )?;
    writer.flush()?;
    Ok(())
}
