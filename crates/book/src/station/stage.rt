//! How far a station's day has come: its phase, and what it filed and revised.
ghost use Rattle.std.specs.Prelude.{◌≡◌};
ghost use Rattle.book.specs.Causes.{order_causes};
ghost use Rattle.book.specs.Questions.{progress_of};
ghost use Rattle.units.specs.Refusals.{Checks, first};
ghost use Rattle.book.specs.States.{wrong_phase};
ghost use Rattle.book.specs.Stations.{filed_on, moved, revised_in};

use crate::answers::Progress;
use units::bits::BitSet;
use units::fault::Fault;
use units::head::Head;
use units::station::Phase;

#[derive(Clone, Copy)]
pub struct Stage {
    pub phase: Phase,
    /// The blocks with a schedule.
    pub filed: BitSet,
    /// The slots in which the schedule was revised.
    pub slots: BitSet,
}

impl Stage {
    /// The phase that the action leads to, if station `t`, whose stage this is, takes the action in its phase.
    pub fn moved(self, t: u64, action: Head) -> Result<Stage, Fault>
        ensures { Checks (wrong_phase action t self.phase) (λ x. x ≡ moved action self) result }
    {
        let phase = match (self.phase, action) {
            (Phase::Filing, Head::File | Head::Declare) => Phase::Filing,
            (Phase::Filing, Head::Issue) => Phase::Running,
            (Phase::Running, Head::Declare | Head::Revise) => Phase::Running,
            (Phase::Running, Head::Close) => Phase::Metering,
            (Phase::Metering, Head::Read) => Phase::Metering,
            (Phase::Metering, Head::Settle) => Phase::Settled,
            (Phase::Settled, Head::Correct) => Phase::Settled,
            (phase, _) => return Err(Fault::WrongPhase { station: t, phase }),
        };
        Ok(Stage { phase, ..self })
    }

    /// How far the day has come.
    pub fn progress(&self) -> Progress
        ensures { result ≡ progress_of self.now }
    {
        Progress {
            phase: self.phase,
            filed: self.filed.count(),
            revisions: self.slots.count(),
        }
    }

    /// The blocks `from` to `to` have a schedule.
    pub fn file(&mut self, from: u8, to: u8)
        ensures { self.new ≡ filed_on from to self.old }
    {
        self.filed.insert_range(from, to);
    }

    /// Revision `number` is the next, and its slot is later than the last revision's.
    pub fn next_revision(&self, number: u64, slot: u8) -> Result<(), Fault>
        ensures { Checks (first (order_causes number slot self.now)) (λ _. Unit {0}) result }
    {
        let next = u64::from(self.slots.count()) + 1;
        if number != next {
            return Err(Fault::RevisionNumber {
                given: number,
                next,
            });
        }
        match self.slots.last() {
            Some(last) if u32::from(slot) <= last => Err(Fault::UsedSlot {
                slot: u64::from(slot),
                last: u64::from(last),
            }),
            _ => Ok(()),
        }
    }

    /// The schedule was revised in the slot.
    pub fn revise(&mut self, slot: u8)
        ensures { self.new ≡ revised_in slot self.old }
    {
        self.slots.insert(slot);
    }
}
