//! Functions of a caller's own that verify a cache in memory, sweep, repair, collect, prune and compact it. Their contracts
//! are proved from clauses alone: those of the calls, of `keep_laws`, `later_laws`, `prune_laws`, `spared_laws`,
//! `standing_laws`, `answer_laws` and `cache_laws`. They say what is so if all calls answer Ok, and `tidied` and `read_tidied` also what is so otherwise. Of other
//! errors they say nothing: those are the calls' own. The module `several` has functions over calls that are made of others.
#![tactic(auto)]

mod several;

ghost use Rattle.std.specs.Prelude.{◌≡◌, [], Some, IfOk, map};
ghost use Rattle.cacache_core.specs.Paths.{Names as PathNames, home_of};
ghost use Rattle.cacache_disk.specs.Replay.{tree_of};
ghost use Rattle.cacache_jobs.specs.JobStates.{site_of};
ghost use Rattle.cacache_laws.specs.{Caches.{IsCache}, Succeeds.{NamesFolder}, trees.{Collecting.{LinksLeadOut}, Housed.{Housed}, Temporary.{LeavesUntemporary}}};
ghost use Rattle.cacache_keep.specs.{Behind.{KeepsKeys}, Limits.{IsWithin}};
ghost use Rattle.uses_keep.specs.Told.{IsMended, JudgesAs, LeavesAs, MendsPlaced, ReadsBeside, ReadsHoused, ReadsPruned, ReadsSpared, ReadsStill, ReadsAsRemoved, ReadsTended, ReadsTidied};

use cacache_core::errors::Result;
use cacache_core::keeping::let_go;
use cacache_disk::memory::MemStore;
use cacache_keep::{
    Collected, Limits, Planned, Pruned, Repaired, Swept, Verdict, collect, compact, keep_laws,
    later_laws, plan, prune, prune_laws, repair, sweep, verify,
};
use cacache_laws::results::after_read;
use cacache_laws::trees::{answer_laws, spared_laws};
use cacache_laws::{cache_laws, standing_laws, success_laws};
use cacache_store::env::{Clock, Env, Names};
use cacache_sync::put::bytes::write_sync;
use cacache_sync::rm::RemoveOpts;
use cacache_sync::{copy_sync, read_sync};
pub use several::{export_own, fetch_then_read, find_pruned, read_layers, touch_then_read};

/// Verifies a cache in memory: the good contents are those with bytes that meet their address, and all others are
/// named.
pub fn judged<C: Clock, N: Names>(env: &mut Env<MemStore, C, N>, cache: &str) -> Result<Verdict>
    ensures { (home : PathNames) → home_of cache.now ≡ Some home → IfOk result (λ v.
        JudgesAs (site_of cache.now env.old.base 0) home env.old.store v) }
{
    let verdict = verify(env, cache)?;
    keep_laws(&env.store);
    Ok(verdict)
}

/// Collects a cache in memory: the contents that an entry has are left.
pub fn collected<C: Clock, N: Names>(
    env: &mut Env<MemStore, C, N>,
    cache: &str,
) -> Result<Collected>
    ensures { (home : PathNames) → home_of cache.now ≡ Some home → IfOk result (λ c.
        LeavesAs (site_of cache.now env.old.base 0) home env.old.store env.new.store c) }
{
    let collected = collect(env, cache)?;
    keep_laws(&env.store);
    Ok(collected)
}

/// Collects a cache in memory that only the cache's own calls have written to. Each key leads where it led, even if the
/// collection ended with an error.
pub fn tidied<C: Clock, N: Names>(env: &mut Env<MemStore, C, N>, cache: &str) -> Result<Collected>
    requires { IsCache cache.now env.old.store }
    ensures { NamesFolder cache.now → KeepsKeys cache.now env.old.store env.new.store }
{
    success_laws();
    let collected = collect(env, cache);
    keep_laws(&env.store);
    collected
}

/// Does this, and then reads by a key, whether the collection was done or not. It reads the bytes that the key led to, unless
/// memory is refused.
pub fn read_tidied<C: Clock, N: Names>(
    env: &mut Env<MemStore, C, N>,
    cache: &str,
    key: &str,
) -> Result<Vec<u8>>
    requires { IsCache cache.now env.old.store }
    ensures { NamesFolder cache.now → ReadsTidied cache.now key.now result env.old.store }
{
    let _collected = tidied(env, cache);
    let read = read_sync(env, cache, key);
    after_read(env, cache, key, &read);
    read
}

/// Collects a cache in memory, and reads by a key. It reads what it would have read without the
/// collection.
pub fn read_after<C: Clock, N: Names>(
    env: &mut Env<MemStore, C, N>,
    cache: &str,
    key: &str,
) -> Result<Vec<u8>>
    ensures { ReadsStill cache.now env.old.base key.now result env.old.store }
{
    let_go(collect(env, cache)?);
    keep_laws(&env.store);
    let bytes = read_sync(env, cache, key)?;
    keep_laws(&env.store);
    answer_laws();
    Ok(bytes)
}

/// Collects a cache in memory, removes a key with its content, and reads by a key. It reads what it would
/// have read with the same removal and no collection, in the store `other` that this would have left.
pub fn read_after_removal<C: Clock, N: Names>(
    env: &mut Env<MemStore, C, N>,
    cache: &str,
    gone: &str,
    key: &str,
) -> Result<Vec<u8>>
    ensures { ReadsAsRemoved cache.now env.old.base gone.now key.now result env.old.store }
{
    let_go(collect(env, cache)?);
    keep_laws(&env.store);
    let removal = RemoveOpts::new().remove_fully(true);
    removal.remove_sync(env, cache, gone)?;
    keep_laws(&env.store);
    let bytes = read_sync(env, cache, key)?;
    keep_laws(&env.store);
    answer_laws();
    Ok(bytes)
}

/// Collects a cache in memory, copies a key's content out of it, writes another key, and reads the first one. It reads the
/// bytes that this one led to; or those that were written, if they meet its integrity too.
pub fn read_beside<C: Clock, N: Names>(
    env: &mut Env<MemStore, C, N>,
    cache: &str,
    key: &str,
    to: &str,
    other: &str,
    data: &[u8],
) -> Result<Vec<u8>>
    ensures { ReadsBeside cache.now key.now to.now other.now «data».now result env.old.store }
{
    let _size = data.len();
    let_go(collect(env, cache)?);
    keep_laws(&env.store);
    copy_sync(env, cache, key, to)?;
    keep_laws(&env.store);
    let_go(write_sync(env, cache, other, data)?);
    keep_laws(&env.store);
    let bytes = read_sync(env, cache, key)?;
    cache_laws(&env.store);
    Ok(bytes)
}

/// Collects a store in memory where everything stands where it may, as after a loss of power. Removes another key by a
/// tombstone, and reads a key. It reads the bytes that the key led to.
pub fn read_spared<C: Clock, N: Names>(
    env: &mut Env<MemStore, C, N>,
    cache: &str,
    gone: &str,
    key: &str,
) -> Result<Vec<u8>>
    ensures { ReadsSpared cache.now gone.now key.now result env.old.store }
{
    let_go(collect(env, cache)?);
    keep_laws(&env.store);
    let tombstone = RemoveOpts::new();
    tombstone.remove_sync(env, cache, gone)?;
    keep_laws(&env.store);
    let bytes = read_sync(env, cache, key)?;
    keep_laws(&env.store);
    later_laws();
    spared_laws();
    Ok(bytes)
}

/// Prunes a store in memory where everything stands where it may, and reads a key. The entries that are kept have no more
/// bytes than the limit. If no entry that was dropped or left has the key, it reads the bytes that the key led to.
pub fn read_pruned<C: Clock, N: Names>(
    env: &mut Env<MemStore, C, N>,
    cache: &str,
    limits: Limits,
    key: &str,
) -> Result<(Pruned, Vec<u8>)>
    ensures fits { IfOk result (λ r. IsWithin limits.bytes r.0.bytes_after) }
    ensures reads { ReadsPruned cache.now key.now result env.old.store }
{
    let pruned = prune(env, cache, limits)?;
    keep_laws(&env.store);
    prune_laws();
    let bytes = read_sync(env, cache, key)?;
    keep_laws(&env.store);
    standing_laws();
    Ok((pruned, bytes))
}

/// Sweeps a cache in memory: its temporary files are gone, and all else is as it was.
pub fn swept<C: Clock, N: Names>(env: &mut Env<MemStore, C, N>, cache: &str) -> Result<Swept>
    ensures { (home : PathNames) → home_of cache.now ≡ Some home → IfOk result (λ s.
        LeavesUntemporary home (tree_of env.old.store) (tree_of env.new.store) s.files) }
{
    let swept = sweep(env, cache)?;
    keep_laws(&env.store);
    Ok(swept)
}

/// Plans a collection of a cache in memory and makes it. What it drops is what was planned.
pub fn collected_as_planned<C: Clock, N: Names>(
    env: &mut Env<MemStore, C, N>,
    cache: &str,
) -> Result<(Planned, Collected)>
    ensures { (home : PathNames) → home_of cache.now ≡ Some home → IfOk result
        (λ r. r.1.dropped.items ≡ map (λ u. u.address) r.0.unused.items) }
{
    let planned = plan(env, cache)?;
    keep_laws(&env.store);
    let collected = collect(env, cache)?;
    keep_laws(&env.store);
    Ok((planned, collected))
}

/// Repairs a cache in memory in which each thing lies in its place: the good contents stay, the others go, and each
/// key leads where it led, except those that are reported, which lead to nothing.
pub fn repaired<C: Clock, N: Names>(env: &mut Env<MemStore, C, N>, cache: &str) -> Result<Repaired>
    ensures { MendsPlaced cache.now env.old.base result env.old.store env.new.store }
{
    let repaired = repair(env, cache)?;
    keep_laws(&env.store);
    Ok(repaired)
}

/// Repairs a cache in memory in which each thing lies in its place, and verifies it: no content is damaged then, and
/// no entry lacks its content.
pub fn repaired_whole<C: Clock, N: Names>(
    env: &mut Env<MemStore, C, N>,
    cache: &str,
) -> Result<Verdict>
    ensures { (home : PathNames) → home_of cache.now ≡ Some home
        → Housed (Some home) (tree_of env.old.store) → IfOk result (λ v. IsMended v) }
{
    let_go(repair(env, cache)?);
    keep_laws(&env.store);
    let after = verify(env, cache)?;
    keep_laws(&env.store);
    Ok(after)
}

/// Collects a cache in memory twice. The second time nothing is dropped.
pub fn collected_twice<C: Clock, N: Names>(
    env: &mut Env<MemStore, C, N>,
    cache: &str,
) -> Result<Collected>
    ensures { (home : PathNames) → home_of cache.now ≡ Some home
        → LinksLeadOut home (tree_of env.old.store) → IfOk result (λ c. c.dropped.items ≡ []) }
{
    let_go(collect(env, cache)?);
    keep_laws(&env.store);
    let again = collect(env, cache)?;
    keep_laws(&env.store);
    Ok(again)
}

/// Compacts a cache in memory in which each thing lies in its place, and reads by a key. It reads what it would have
/// read without the compaction.
pub fn read_compacted<C: Clock, N: Names>(
    env: &mut Env<MemStore, C, N>,
    cache: &str,
    key: &str,
) -> Result<Vec<u8>>
    ensures { ReadsHoused cache.now env.old.base key.now result env.old.store }
{
    let_go(compact(env, cache)?);
    keep_laws(&env.store);
    let bytes = read_sync(env, cache, key)?;
    keep_laws(&env.store);
    answer_laws();
    Ok(bytes)
}

/// Sweeps, repairs and compacts a cache in memory, and then reads by a key that led to a good content. If each file and
/// folder of the cache was where the format puts it, the key still leads to the same entry and the same content. The result
/// is one that a read could have given right before the compaction.
pub fn read_tended<C: Clock, N: Names>(
    env: &mut Env<MemStore, C, N>,
    cache: &str,
    key: &str,
) -> Result<Vec<u8>>
    ensures { ReadsTended cache.now env.old.base key.now result env.old.store env.new.store }
{
    let_go(sweep(env, cache)?);
    keep_laws(&env.store);
    let_go(repair(env, cache)?);
    keep_laws(&env.store);
    let_go(compact(env, cache)?);
    keep_laws(&env.store);
    let bytes = read_sync(env, cache, key)?;
    keep_laws(&env.store);
    answer_laws();
    Ok(bytes)
}
