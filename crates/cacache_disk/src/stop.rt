//! Why a step isn't done.
ghost use Rattle.std.specs.Prelude.{◌≡◌};
ghost use Rattle.cacache_disk.specs.declared.stop.Stop.TheVariants as stop;

use cacache_core::errors::Fault;
use std::alloc::{AllocError, AllocFailed};

/// Why a step isn't done.
#[derive(Clone, Copy, Debug)]
pub enum Stop {
    /// The step fails.
    Fault(Fault),
    /// Memory was refused.
    OutOfMemory,
}

impl From<AllocError> for Stop {
    ghost from_gives = { λ _ made. made ≡ stop.OutOfMemory };

    fn from(_error: AllocError) -> Stop {
        Stop::OutOfMemory
    }
}

impl<T: Drop> From<AllocFailed<T>> for Stop {
    ghost from_gives = { λ _ made. made ≡ stop.OutOfMemory };

    fn from(_error: AllocFailed<T>) -> Stop {
        Stop::OutOfMemory
    }
}
