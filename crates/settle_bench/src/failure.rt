//! Why no book was reported.
ghost use Rattle.settle_bench.specs.declared.failure.Failure.TheVariants.{Refused};
ghost use Rattle.std.specs.Prelude.{◌≡◌};
ghost use Rattle.units.specs.declared.fault.Fault.TheVariants.{NoMemory};

use std::alloc::AllocError;
use thiserror::Error;
use units::fault::Fault;

/// Why no book was reported.
#[derive(Clone, Copy, Debug, Error)]
pub enum Failure {
    #[error("{0}")]
    Refused(Fault),
    #[error("no book was asked for")]
    NoBook,
}

impl From<Fault> for Failure {
    ghost from_gives = { λ fault failure. failure ≡ Refused fault };

    fn from(fault: Fault) -> Failure {
        Failure::Refused(fault)
    }
}

impl From<AllocError> for Failure {
    ghost from_gives = { λ _ failure. failure ≡ Refused NoMemory };

    fn from(error: AllocError) -> Failure {
        Failure::Refused(Fault::from(error))
    }
}
