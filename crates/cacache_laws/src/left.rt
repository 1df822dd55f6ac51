//! What holds of a store in memory that began with what a loss of power left, on a function that does nothing.
ghost use Rattle.cacache_laws.specs.Standing.{CachesStand, LooksLeaveStanding, StandingFinds, StandingReads, StandingWrites};

/// What lookups, reads and puts do on a store in memory if each thing is where it may be and no more is known.
///
/// Such is what a loss of power left of a cache. A lookup finds what the key leads to, and a read gives the bytes
/// that the key leads to, if they meet its integrity. After a put that stored, its key leads to its bytes; everything
/// else is as it was, except what lay at the address of these bytes. Contents and lines that nothing leads to may be
/// damaged.
pub fn standing_laws()
    ensures stands { CachesStand }
    ensures looks { LooksLeaveStanding }
    ensures finds { StandingFinds }
    ensures reads { StandingReads }
    ensures writes { StandingWrites }
{}
