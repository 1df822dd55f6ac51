//! What a storm comes to.
ghost use Rattle.std.specs.Prelude.{◌≡◌};
ghost use Rattle.cacache_world.specs.declared.event.WorldFault.TheVariants as faults;
ghost use Rattle.cacache_shared.specs.declared.outcome.StormFault.TheVariants.{World};

use cacache_core::errors::Error;
use cacache_world::WorldFault;
use std::alloc::AllocError;

/// What the threads of a storm did.
#[derive(Clone, Copy, Debug, PartialEq, Eq)]
pub struct Storm {
    /// How many moves they made.
    pub moves: u64,
    /// How many entries the world lists afterwards.
    pub live: u64,
}

/// Why a storm ended early.
#[derive(Debug, Drop)]
pub enum StormFault {
    /// There may be 1 to 64 threads, and 1 to 1000 keys.
    Count,
    /// A thread got other bytes than it put, or its seat doesn't agree with the world.
    Mismatch,
    /// The gate said so.
    Quit,
    /// A call failed.
    Failed(Error),
    /// The world refused an event.
    World(WorldFault),
}

impl From<AllocError> for StormFault {
    ghost from_gives = { λ _ fault. fault ≡ World faults.OutOfMemory };

    fn from(_error: AllocError) -> StormFault {
        StormFault::World(WorldFault::OutOfMemory)
    }
}

impl From<WorldFault> for StormFault {
    ghost from_gives = { λ world fault. fault ≡ World world };

    fn from(fault: WorldFault) -> StormFault {
        StormFault::World(fault)
    }
}
