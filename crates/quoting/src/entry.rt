//! A line of a request, read by itself: its numbers are not yet held against their limits.
ghost use Rattle.quoting.specs.Words.{Says, entry_in, generator_in, key_in, schedule_in, tariff_in};
ghost use Rattle.std.specs.Prelude.{◌≡◌};

use crate::choice::KeyChoice;
use crate::complaint::Cause;
use crate::words::Words;
use share::load::Load;
use tariff::banded::Banded;

/// A tariff by its name and numbers.
#[derive(Clone, Copy)]
pub enum TariffName {
    Bands(Banded),
    Rates { export: u32, domestic: u32 },
}

/// What a line says.
#[derive(Clone, Copy)]
pub enum Entry {
    Tariff(TariffName),
    Key(KeyChoice),
    Schedule(u32),
    Generator(Load),
}

fn read_tariff(words: &Words) -> Result<TariffName, Cause>
    ensures { result ≡ tariff_in words.now }
{
    match words.at(1) {
        "single" => {
            words.expect(4)?;
            let export = words.number_at(2)?;
            let domestic = words.number_at(3)?;
            Ok(TariffName::Rates { export, domestic })
        }
        name => {
            words.expect(2)?;
            match name {
                "10-20-30" => Ok(TariffName::Bands(Banded::From10)),
                "15-25-35" => Ok(TariffName::Bands(Banded::From15)),
                _ => Err(Cause::UnknownTariff),
            }
        }
    }
}

fn read_key(words: &Words) -> Result<KeyChoice, Cause>
    ensures { result ≡ key_in words.now }
{
    words.expect(2)?;
    match words.at(1) {
        "units" => Ok(KeyChoice::Units),
        "capacity" => Ok(KeyChoice::Capacity),
        _ => Err(Cause::UnknownKey),
    }
}

fn read_schedule(words: &Words) -> Result<u32, Cause>
    ensures { result ≡ schedule_in words.now }
{
    words.expect(2)?;
    words.number_at(1)
}

fn read_generator(words: &Words) -> Result<Load, Cause>
    ensures { result ≡ generator_in words.now }
{
    words.expect(4)?;
    let installed = words.number_at(1)?;
    let capacity = words.number_at(2)?;
    let actual = words.number_at(3)?;
    Ok(Load {
        actual,
        capacity,
        installed,
    })
}

/// The first word says which line it is.
fn read_entry(words: &Words) -> Result<Entry, Cause>
    ensures { result ≡ entry_in words.now }
{
    match words.at(0) {
        "tariff" => Ok(Entry::Tariff(read_tariff(words)?)),
        "key" => Ok(Entry::Key(read_key(words)?)),
        "schedule" => Ok(Entry::Schedule(read_schedule(words)?)),
        "generator" => Ok(Entry::Generator(read_generator(words)?)),
        _ => Err(Cause::UnknownLine),
    }
}

impl Entry {
    /// What a line says, or nothing where it is blank.
    pub fn read(line: &str) -> Result<Option<Entry>, Cause>
        ensures { Says line.now result }
    {
        let words = Words::of(line);
        if words.is_empty() {
            return Ok(None);
        }
        Ok(Some(read_entry(&words)?))
    }
}
