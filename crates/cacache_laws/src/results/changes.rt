//! After calls that store, insert or remove.
ghost use Rattle.cacache_laws.specs.results.{Writes.{WriteMeans, ContentWriteMeans, InsertionMeans}, Removals.{RemovalMeans, ContentRemovalMeans, FullRemovalMeans, ClearingMeans}};

use cacache_core::errors::Result;
use cacache_core::integrity::{Algorithm, Integrity};
use cacache_disk::memory::MemStore;
use cacache_store::env::{Clock, Env, Names};
use cacache_sync::put::opts::WriteOpts;

/// After a write under a key: it leads to the bytes, or the error is excused. Other keys lead where they led, and all
/// bytes stay except those that others with their address replaced.
pub fn after_write<C: Clock, N: Names>(
    env: &Env<MemStore, C, N>,
    algo: Algorithm,
    cache: &str,
    key: &str,
    data: &[u8],
    written: &Result<Integrity>,
)
    ensures { WriteMeans C.given N.given algo cache.now key.now «data».now written.now env.now }
{
    let _count = data.len();
    let _log = env.store.log();
}

/// After a write without a key: the bytes lie under their integrity, or the error is excused.
pub fn after_write_hash<C: Clock, N: Names>(
    env: &Env<MemStore, C, N>,
    algo: Algorithm,
    cache: &str,
    data: &[u8],
    written: &Result<Integrity>,
)
    ensures { ContentWriteMeans C.given N.given algo cache.now «data».now written.now env.now }
{
    let _log = env.store.log();
}

/// After `index::insert` without a size and metadata: the key leads to the integrity of the options, and to nothing
/// if they have none, or the error is excused. All else stays.
pub fn after_insert<C: Clock, N: Names>(
    env: &Env<MemStore, C, N>,
    cache: &str,
    key: &str,
    opts: &WriteOpts,
    inserted: &Result<Integrity>,
)
    ensures { InsertionMeans C.given N.given cache.now key.now opts.now inserted.now env.now }
{
    let _log = env.store.log();
}

/// After `remove_sync`: the key leads to nothing, or the error is excused. All else stays.
pub fn after_remove<C: Clock, N: Names>(
    env: &Env<MemStore, C, N>,
    cache: &str,
    key: &str,
    removed: &Result<()>,
)
    ensures { RemovalMeans C.given cache.now key.now removed.now env.now }
{
    let _log = env.store.log();
}

/// After `remove_hash_sync`: nothing lies under the integrity, or the error is excused. All else stays.
pub fn after_remove_hash<C: Clock, N: Names>(
    env: &Env<MemStore, C, N>,
    cache: &str,
    sri: &Integrity,
    removed: &Result<()>,
)
    ensures { ContentRemovalMeans cache.now sri.now removed.now env.now }
{
    let _address = sri.address();
    let _log = env.store.log();
}

/// After a full removal by `RemoveOpts`: the key leads to nothing, or the error is excused. What else may be gone is
/// its content, and keys of its bucket.
pub fn after_remove_fully<C: Clock, N: Names>(
    env: &Env<MemStore, C, N>,
    cache: &str,
    key: &str,
    removed: &Result<()>,
)
    ensures { FullRemovalMeans cache.now key.now removed.now env.now }
{
    let _log = env.store.log();
}

/// After `clear_sync`: if it is done, the cache is empty.
pub fn after_clear<C: Clock, N: Names>(env: &Env<MemStore, C, N>, cache: &str, cleared: &Result<()>)
    ensures { ClearingMeans cache.now cleared.now env.now }
{
    let _log = env.store.log();
}
