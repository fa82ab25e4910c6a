//! The opening of a full book.
ghost use Rattle.std.specs.Prelude.{◌≡◌, replicate};

use units::call::Opening;
use units::limits::{GENERATORS, STATIONS};

/// Wind stations, as many as a book has, with as many generators each as a station has.
pub fn full_opening(installed: &[u64]) -> Opening<'_>
    ensures wind { result.kinds.now ≡ replicate STATIONS 0 }
    ensures full { result.counts.now ≡ replicate STATIONS GENERATORS }
{
    Opening {
        kinds: &[0; STATIONS],
        counts: &[GENERATORS as u64; STATIONS],
        installed,
    }
}
