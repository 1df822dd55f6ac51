//! What a pruning leaves, on any store in memory.
ghost use Rattle.cacache_keep.specs.Sparing.{PrunePlansLeave, PrunesDropKeys, PrunesDropLed, PrunesSpareKeys, StoppedPrunesSpareKeys};

/// Of a cache with a path that names a folder: a plan of a pruning leaves the tree (`plans`). After a pruning of a store
/// in memory where everything stands where it may, each key that led to bytes leads to the same entry and the same
/// bytes, unless an entry that was dropped or left has it (`keys`). The key of such an entry led to that entry (`led`),
/// and leads to nothing then if it was dropped (`drops`). Each other key leads where it led also after one that an error
/// ended, unless its key was dropped before that, or memory ran out as it was being dropped (`stopped`).
pub fn prune_laws()
    ensures plans { PrunePlansLeave }
    ensures keys { PrunesSpareKeys }
    ensures drops { PrunesDropKeys }
    ensures led { PrunesDropLed }
    ensures stopped { StoppedPrunesSpareKeys }
{}
