//! What `list`, `verify`, `collect`, `plan`, `sweep`, `repair` and `compact` come to on a store in memory.
ghost use Rattle.cacache_disk.specs.Replay.{IsLog};
ghost use Rattle.cacache_keep.specs.{Behind.{CollectionsKeepKeys, LaterKeysStay, StoppedKeepKeys}, Houses.{RepairsHouse, SweepsHouse, SweepsKeepGood}, Kept.{CachesAreSwept, CollectionsLackIdle, CollectionsLeave, CollectionsSettle, CompactionsAreUnseen, CompactionsLeave, CompactionsStop, LaterReadsStay, ListsHold, LooksStay, PlansForetell, PlansLeave, RepairsKeepGood, RepairsMend, RepairsVerify, VerdictsJudge}, Losses.{CompactionsFix, CompactionsGrow, CompactionsLast, CompactionsOutlast, CompactionsSpare}};

use cacache_disk::memory::MemStore;

/// What upkeep leaves, and what later calls and losses of power see of it: on a store in memory that nobody else writes
/// to, in a cache with a path that names a folder, whatever was planted there.
///
/// `repairs` asks that nothing strange lies in the cache's folder and that links lead out of it. `verified`, `good` and
/// `houses` ask besides that each bucket is a key's and holds well-formed entries of its own keys. `later` holds up to
/// the next insertion. `keys`, `stopped` and `later_keys` are about a cache that only calls wrote to: there links lead
/// out, by `links` of `cacache_laws::trees::collect_laws`. Up to the next insertion of its key, `later_keys` allows
/// collections, exports, and writes, insertions, removals and writers of other keys.
///
/// What the log gained is said by the clauses of `list` (`lists`, `by_hash`), `verify` (`verifies`), `collect`
/// (`collects`), `plan` (`plans`), `sweep` (`sweeps`), `repair` (`repairs`) and `compact` (`compacts`, `stops`). Here
/// `logged` says that the store's log is a disk's, which the laws ask of it after a call.
pub fn keep_laws(store: &MemStore)
    ensures logged { IsLog store.now }
    ensures lists { ListsHold }
    ensures verifies { VerdictsJudge }
    ensures collects { CollectionsLeave }
    ensures lacks { CollectionsLackIdle }
    ensures settles { CollectionsSettle }
    ensures looks { LooksStay }
    ensures later { LaterReadsStay }
    ensures keys { CollectionsKeepKeys }
    ensures stopped { StoppedKeepKeys }
    ensures later_keys { LaterKeysStay }
    ensures plans_leave { PlansLeave }
    ensures plans { PlansForetell }
    ensures sweeps { CachesAreSwept }
    ensures repairs { RepairsMend }
    ensures verified { RepairsVerify }
    ensures good { RepairsKeepGood }
    ensures houses { RepairsHouse }
    ensures sweeps_house { SweepsHouse }
    ensures sweeps_good { SweepsKeepGood }
    ensures compacts { CompactionsLeave }
    ensures cut_short { CompactionsStop }
    ensures unseen { CompactionsAreUnseen }
    ensures fixes { CompactionsFix }
    ensures outlasts { CompactionsOutlast }
    ensures lasts { CompactionsLast }
    ensures grows { CompactionsGrow }
    ensures spares { CompactionsSpare }
{
    let _log = store.log();
}
