//! A station: what it is, how far its day has come, and what it owes.
mod balance;
mod plant;
mod stage;

ghost use Rattle.std.specs.Prelude.{◌≡◌};
ghost use Rattle.book.specs.Causes.{IsRevision, revision_causes};
ghost use Rattle.units.specs.Refusals.{Checks, first};
ghost use Rattle.book.specs.States.{wrong_phase};
ghost use Rattle.book.specs.Stations.{fresh, moved, on_stage};

use crate::checks::{all_at_most, as_many};
use arrayvec::ArrayVec;
pub use balance::Balance;
pub use plant::Plant;
use posting::members::Members;
pub use stage::Stage;
use units::bits::BitSet;
use units::fault::Fault;
use units::head::Head;
use units::limits::{BLOCKS, REVISION_LEAD, STATION_KW};
use units::station::{Kind, Phase};

/// A block's charge and shares may be asked for where a reading may be corrected.
pub const ASK: Head = Head::Correct;

#[derive(Clone, Copy)]
pub struct Station {
    pub plant: Plant,
    pub stage: Stage,
    pub balance: Balance,
}

impl Station {
    /// A station as its day begins.
    pub fn new(kind: Kind, members: Members) -> Station
        ensures { result ≡ fresh kind members }
    {
        Station {
            plant: Plant { kind, members },
            stage: Stage {
                phase: Phase::Filing,
                filed: BitSet::new(),
                slots: BitSet::new(),
            },
            balance: Balance { charges: 0, net: 0 },
        }
    }

    /// The station, which has number `t`, in the phase that the action leads to, if it takes the action in its phase.
    pub fn moved(self, t: u64, action: Head) -> Result<Station, Fault>
        ensures { Checks (wrong_phase action t self.stage.phase) (λ x. x ≡ on_stage (moved action) self) result }
    {
        let stage = self.stage.moved(t, action)?;
        Ok(Station { stage, ..self })
    }

    /// Revision `number` with notice in block `notice`, if the station may make it: its slot, and the values that it schedules.
    pub fn revision(
        &self,
        number: u64,
        notice: u64,
        values: &[u64],
    ) -> Result<(u8, ArrayVec<u32, BLOCKS>), Fault>
        ensures { Checks (first (revision_causes number notice values.now self.now)) (λ x. IsRevision self.now.plant.kind notice values.now x.0 x.1.items) result }
    {
        let slot = self.plant.slot(notice).ok_or(Fault::BadNotice { notice })?;
        as_many(values.len(), BLOCKS as u64 - REVISION_LEAD - notice)?;
        let schedule = all_at_most(STATION_KW, values)?;
        self.stage.next_revision(number, slot)?;
        Ok((slot, schedule))
    }
}

/// A wind station of one generator, as its day begins.
impl Default for Station {
    ghost use Rattle.std.specs.Prelude.{◌≡◌, pos};

    ghost is_default = { λ s. s.balance.charges ≡ pos 0 };

    fn default() -> Station {
        Station::new(Kind::Wind, Members::of(0, 1).unwrap())
    }
}
