//! What a station is: nothing of it changes over its day.
ghost use Rattle.std.specs.Prelude.{◌≡◌};
ghost use Rattle.book.specs.Stations.{slot_of};

use posting::members::Members;
use units::limits::{FIRST_SOLAR_NOTICE, LAST_NOTICE, LAST_SOLAR_NOTICE, SLOT_BLOCKS};
use units::station::Kind;

#[derive(Clone, Copy)]
pub struct Plant {
    pub kind: Kind,
    /// Its generators.
    pub members: Members,
}

impl Plant {
    /// The slot in which a notice falls, if one may be given in that block.
    pub fn slot(&self, notice: u64) -> Option<u8>
        ensures { result ≡ slot_of self.now.kind notice }
    {
        match (self.kind, notice) {
            (Kind::Wind, 0..=LAST_NOTICE) => Some((notice / SLOT_BLOCKS) as u8),
            (Kind::Solar, FIRST_SOLAR_NOTICE..=LAST_SOLAR_NOTICE) => {
                Some(((notice - FIRST_SOLAR_NOTICE) / SLOT_BLOCKS) as u8)
            }
            _ => None,
        }
    }
}
