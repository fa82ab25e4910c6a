//! Whether a page is long enough for a text.
ghost use Rattle.spell.specs.Causes.{short_page};
ghost use Rattle.units.specs.Refusals.{Passes};

use units::fault::Fault;

/// Refuses a page of fewer than `least` bytes.
pub fn long_enough(page: &[u8], least: usize) -> Result<(), Fault>
    ensures { Passes (short_page least page.now) result }
{
    if page.len() < least {
        return Err(Fault::ShortOutput {
            length: page.len() as u64,
        });
    }
    Ok(())
}
