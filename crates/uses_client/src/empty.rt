//! Packages in a cache that is empty at first.
ghost use Rattle.std.specs.Prelude.{◌≡◌, IfOk, IfErr, OnOk};
ghost use Rattle.cacache.specs.Laws.{IsCache, IsEmptyCache, FailsForMemory, IsReady, NamesFolder};
ghost use Rattle.uses_client.specs.Packages.{FailsClear};

use crate::reading::{fetch, fetch_hash};
use crate::storing::{store, uninstall};
use cacache::env::{Clock, CountNames, Env, Names};
use cacache::laws::{after_clear, cache_laws, success_laws};
use cacache::store::MemStore;
use cacache::{Integrity, Result};
use std::alloc::Global;

/// What was stored, and what was read back.
#[derive(Drop)]
pub struct ReadBack {
    pub integrity: Integrity,
    pub by_key: Vec<u8>,
    pub by_integrity: Vec<u8>,
}

/// Stores bytes under a key, whatever the cache holds, and reads them by the key and by the integrity that storing them
/// returned. The same bytes are read. Only memory fails it on a cache that is ready.
fn store_and_read<C: Clock, N: Names>(
    env: &mut Env<MemStore, C, N>,
    cache: &str,
    key: &str,
    data: &[u8],
) -> Result<ReadBack>
    requires { IsCache cache.now env.old.store }
    ensures sound { IsCache cache.now env.new.store }
    ensures by_key { IfOk result (λ found. found.by_key.items ≡ «data».now) }
    ensures by_integrity { IfOk result (λ found. found.by_integrity.items ≡ «data».now) }
    ensures memory { IsReady cache.now env.old.store → FailsForMemory result }
{
    let integrity = store(env, cache, key, data)?;
    let by_key = fetch(env, cache, key)?;
    let by_integrity = fetch_hash(env, cache, &integrity)?;
    Ok(ReadBack {
        integrity,
        by_key,
        by_integrity,
    })
}

/// Clears the cache, which is empty afterwards. If the cache's path names a folder, only memory fails it, or that its folder is
/// missing or has more than 2^63 names.
fn clear<C: Clock, N: Names>(env: &mut Env<MemStore, C, N>, cache: &str) -> Result<()>
    requires { IsCache cache.now env.old.store }
    ensures sound { IsCache cache.now env.new.store }
    ensures empty { OnOk result (IsEmptyCache cache.now env.new.store) }
    ensures fails { NamesFolder cache.now → IfErr result FailsClear }
{
    let cleared = cacache::clear_sync(env, cache);
    after_clear(env, cache, &cleared);
    cleared
}

/// Stores bytes in an empty cache, reads them, removes the key and clears the cache, which is empty again in the end. If the
/// cache is ready, it fails as `clear` does.
pub fn come_and_go<C: Clock, N: Names>(
    env: &mut Env<MemStore, C, N>,
    cache: &str,
    key: &str,
    data: &[u8],
) -> Result<ReadBack>
    requires { IsEmptyCache cache.now env.old.store }
    ensures by_key { IfOk result (λ found. found.by_key.items ≡ «data».now) }
    ensures empty { OnOk result (IsEmptyCache cache.now env.new.store) }
    ensures fails { IsReady cache.now env.old.store → IfErr result FailsClear }
{
    let found = store_and_read(env, cache, key, data)?;
    uninstall(env, cache, key)?;
    clear(env, cache)?;
    Ok(found)
}

/// Stores bytes in a new store, and reads them by the key and by the integrity. It requires nothing of its caller. If the
/// cache's path names a folder, only memory fails it.
pub fn from_nothing<C: Clock>(
    alloc: Global,
    clock: C,
    cache: &str,
    key: &str,
    data: &[u8],
) -> Result<ReadBack>
    ensures by_key { IfOk result (λ found. found.by_key.items ≡ «data».now) }
    ensures by_integrity { IfOk result (λ found. found.by_integrity.items ≡ «data».now) }
    ensures memory { NamesFolder cache.now → FailsForMemory result }
{
    success_laws();
    let memory = MemStore::new(alloc)?;
    cache_laws(&memory);
    let mut env = Env::new(alloc, memory, clock, CountNames::from(0), "/")?;
    store_and_read(&mut env, cache, key, data)
}
