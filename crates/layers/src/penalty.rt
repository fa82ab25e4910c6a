ghost use Rattle.std.specs.Prelude.{◌≡◌, ◌≤◌, ◌↔◌, IfSome, IsOk, None, slice_index_or, unsigned_abs};
ghost use Rattle.layers.specs.Penalties.{AreCapacities, MayStand, applies, bad_capacity, due_capacity, first_one_above, multiplied, penal, penalty_refused, raised};
ghost use Rattle.layers.specs.PenaltiesLemmas.{penal_settled, penal_bounded};
ghost use Rattle.units.specs.Refusals.{Checks};
ghost use Rattle.std.proofs.Common.{rules};

use tariff::query::Query;
use tariff::tariff::{Tariff, sized_charge};
use units::fault::Fault;
use units::limits::{BLOCK_PAISE, BLOCKS, HIGHEST_UNDER_PENALTY, PENALTY_FACTOR, STATION_KW};

/// For each block, the capacity that should have been declared, if another was: none that no station has.
#[derive(Clone, Copy)]
struct DueCapacities {
    blocks: [Option<u32>; BLOCKS],
    ghost low: { first_one_above blocks ≡ None },
}

/// A tariff that charges one station threefold in the blocks for which it declared a wrong capacity.
/// It changes no charge of a query outside the range. Over a ceiling above 3,333 it changes nothing, and `new` makes none.
#[derive(Clone, Copy, Drop)]
pub struct Penalty<T> {
    below: T,
    station: u8,
    due: DueCapacities,
}

/// A charge that is payable, multiplied, and nothing for one that is receivable.
fn multiply(charge: i64) -> i64
    requires { unsigned_abs charge ≤ BLOCK_PAISE }
    ensures { result ≡ multiplied charge }
{
    i64::from(PENALTY_FACTOR) * charge.max(0)
}

/// The first capacity that no station has.
fn first_above(due: &[Option<u32>; BLOCKS]) -> Option<u32>
    ensures { result ≡ first_one_above due.now }
{
    due.iter()
        .filter_map(|capacity| *capacity)
        .find(|kw| *kw > STATION_KW)
}

impl DueCapacities {
    /// The capacities, or the first against which there is a reason.
    #[tactic(auto, using(crate::specs::PenaltiesLemmas::entry_low, crate::specs::PenaltiesLemmas::none_above))]
    fn new(due: [Option<u32>; BLOCKS]) -> Result<DueCapacities, Fault>
        ensures limits { IsOk result ↔ AreCapacities due }
        ensures value { Checks (bad_capacity (first_one_above due)) (λ c. c.blocks ≡ due) result }
    {
        match first_above(&due) {
            Some(kw) => Err(Fault::BadPenalty {
                value: u64::from(kw),
            }),
            None => Ok(DueCapacities { blocks: due }),
        }
    }

    /// The capacity that should have been declared for a block, if another was.
    fn at(&self, block: u8) -> Option<u32>
        ensures { result ≡ slice_index_or self.now.blocks block None }
    {
        *self.blocks.get(usize::from(block))?
    }
}

impl<T: Tariff + Drop> Penalty<T> {
    /// A penalty over `below`, or the first reason against it: the ceiling, then the capacities in block order.
    pub fn new(below: T, station: u8, due: [Option<u32>; BLOCKS]) -> Result<Penalty<T>, Fault>
        ensures limits { IsOk result ↔ MayStand (T.Tariff.ceiling_of below) due }
        ensures value { Checks (penalty_refused (T.Tariff.ceiling_of below) due)
            (λ p. (p.below ≡ below) × (p.station ≡ station) × (p.due.blocks ≡ due)) result }
    {
        let ceiling = below.ceiling();
        if ceiling > HIGHEST_UNDER_PENALTY {
            return Err(Fault::BadPenalty {
                value: u64::from(ceiling),
            });
        }
        Ok(Penalty {
            below,
            station,
            due: DueCapacities::new(due)?,
        })
    }
}

impl<T: Tariff> Penalty<T> {
    /// Whether there is no reason against the penalty; its capacities give none.
    fn applies(&self) -> bool
        ensures { result ≡ applies (T.Tariff.ceiling_of self.now.below) self.now.due.blocks }
    {
        self.below.ceiling() <= HIGHEST_UNDER_PENALTY
    }

    /// The capacity that should have been declared, if another was.
    #[tactic(auto, using(crate::specs::PenaltiesLemmas::entry_low))]
    fn capacity_due(&self, query: Query) -> Option<u32>
        ensures value { result ≡ due_capacity self.now.station self.now.due.blocks query }
        ensures low { IfSome result (λ kw. kw ≤ STATION_KW) }
    {
        if query.station != self.station {
            return None;
        }
        self.due.at(query.block)
    }
}

impl<T: Tariff> Tariff for Penalty<T> {
    ghost charge_of = { λ t. penal (T.Tariff.ceiling_of t.below) t.station t.due.blocks (T.Tariff.charge_of t.below) };

    ghost ceiling_of = { λ t. raised (T.Tariff.ceiling_of t.below) t.due.blocks };

    ghost code_of = { λ t. T.Tariff.code_of t.below };

    ghost settled = { λ t. penal_settled (T.Tariff.ceiling_of t.below) (T.Tariff.charge_of t.below)
        (T.Tariff.settled t.below) t.station t.due.blocks };

    ghost bounded = { λ t. penal_bounded (T.Tariff.ceiling_of t.below) (T.Tariff.charge_of t.below)
        (T.Tariff.bounded t.below) t.station t.due.blocks };

    ghost capped = { Prim.search rules };

    ghost numbered = { Prim.search rules };

    fn charge(&self, query: Query) -> i64 {
        match self.capacity_due(query) {
            Some(capacity) if query.is_in_range() && self.applies() => {
                multiply(sized_charge(&self.below, Query { capacity, ..query }))
            }
            _ => self.below.charge(query),
        }
    }

    fn ceiling(&self) -> u32 {
        let below = self.below.ceiling();
        if self.applies() {
            PENALTY_FACTOR * below
        } else {
            below
        }
    }

    fn code(&self) -> u8 {
        self.below.code()
    }
}
