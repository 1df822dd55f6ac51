//! Functions of a caller's own over calls that are made of others: a touch, a pruning, an export by the cheapest way, a read of
//! two caches, and a read that fetches what is lacking.
ghost use Rattle.std.specs.{Prelude.{◌≡◌, ◌≢◌, ◌⊎◌, ◌<◌, ◌^◌, ℕ, List, None, Some, Vec, Ok, IfErr, IfOk, length, map}, Global.{Global}};
ghost use Rattle.cacache_core.specs.{declared.{errors.Error.TheVariants.{OutOfMemory}, integrity.digest.Hash.{Hash}}, Paths.{Names as PathNames, home_of}};
ghost use Rattle.cacache_disk.specs.Replay.{shown, tree_of};
ghost use Rattle.cacache_entry.specs.View.{found_view};
ghost use Rattle.cacache_laws.specs.{Caches.{HasKey, IsCache, LacksKey}, ExportEffects.{IsApart}, OpenWriters.{LeavesKnownCache}, Standing.{IsStanding}, Succeeds.{NamesFolder}, results.Reads.{GivesJust, KeyLiesWhole}};
ghost use Rattle.cacache_keep.specs.Sparing.{HasKeyAmong};

use cacache_core::errors::Result;
use cacache_disk::memory::MemStore;
use cacache_entry::Metadata;
use cacache_keep::{Limits, Pruned, after_touch, keep_laws, prune, prune_laws, touch};
use cacache_laws::results::{after_export, after_get_or_put, after_read, layered_laws};
use cacache_laws::{look_laws, standing_laws};
use cacache_store::env::{Clock, Env, Names};
use cacache_sync::index::find;
use cacache_sync::{ExportMode, Exported, Layered, export_sync, get_or_put_sync, read_sync};

/// Marks a key as used, and reads it: it reads the bytes that the key led to.
pub fn touch_then_read<C: Clock, N: Names>(
    env: &mut Env<MemStore, C, N>,
    cache: &str,
    key: &str,
) -> Result<Vec<u8>>
    requires { IsCache cache.now env.old.store }
    ensures { (i : List Hash) (bytes : List ℕ) → HasKey cache.now key.now i bytes env.old.store
        → IfOk result (λ v. v.items ≡ bytes) }
{
    let touched = touch(env, cache, key);
    after_touch(env, cache, key, &touched);
    let _led = touched?;
    let read = read_sync(env, cache, key);
    after_read(env, cache, key, &read);
    read
}

/// Prunes a store in memory where everything stands where it may, and looks up a key. If an entry that was dropped has it, and
/// none that was left, no entry is found.
pub fn find_pruned<C: Clock, N: Names>(
    env: &mut Env<MemStore, C, N>,
    cache: &str,
    limits: Limits,
    key: &str,
) -> Result<(Pruned, Option<Metadata>)>
    ensures { (home : PathNames) → home_of cache.now ≡ Some home
        → IsStanding cache.now env.old.store → IfOk result (λ r. HasKeyAmong
        (map found_view r.0.dropped.items) key.now
        → (HasKeyAmong (map found_view r.0.left.items) key.now → ⊥) → r.1 ≡ None) }
{
    let pruned = prune(env, cache, limits)?;
    keep_laws(&env.store);
    prune_laws();
    let found = find(env, cache, key)?;
    keep_laws(&env.store);
    standing_laws();
    Ok((pruned, found))
}

/// Exports a key's bytes to a path apart from the cache, as a file of its own. The bytes are there then. If the cache's path
/// names a folder, an error left the whole store as it was, unless memory was refused.
pub fn export_own<C: Clock, N: Names>(
    env: &mut Env<MemStore, C, N>,
    cache: &str,
    key: &str,
    to: &str,
) -> Result<Exported>
    requires cache { IsCache cache.now env.old.store }
    requires apart { IsApart cache.now to.now }
    ensures leaves { LeavesKnownCache cache.now env.old.store env.new.store }
    ensures own { IfOk result (λ e. e ≢ Exported.HardLinked) }
    ensures arrives { (i : List Hash) (bytes : List ℕ)
        → HasKey cache.now key.now i bytes env.old.store
        → IfOk result (λ _. shown (tree_of env.new.store) to.now ≡ Some bytes) }
    ensures stays { NamesFolder cache.now → IfErr result (λ e. (e ≡ OutOfMemory)
        ⊎ (tree_of env.new.store ≡ tree_of env.old.store)) }
{
    let exported = export_sync(env, cache, key, to, ExportMode::Own);
    after_export(env, cache, to, &exported);
    exported
}

/// Reads a key from two caches: the bytes that it leads to in the upper one, and if it leads to nothing there, those of the
/// lower one. Nothing changes.
pub fn read_layers<C: Clock, N: Names>(
    env: &mut Env<MemStore, C, N>,
    layers: &Layered<'_>,
    key: &str,
) -> Result<Vec<u8>>
    requires upper { IsCache layers.now.upper.now env.old.store }
    requires lower { IsCache layers.now.lower.now env.old.store }
    ensures same { tree_of env.new.store ≡ tree_of env.old.store }
    ensures first { (i : List Hash) (bytes : List ℕ)
        → HasKey layers.now.upper.now key.now i bytes env.old.store
        → GivesJust bytes result env.old.store env.new.store }
    ensures second { LacksKey layers.now.upper.now key.now env.old.store
        → (i : List Hash) (bytes : List ℕ)
        → HasKey layers.now.lower.now key.now i bytes env.old.store
        → IfOk result (λ v. v.items ≡ bytes) }
{
    let read = layers.read_sync(env, key);
    layered_laws(env);
    look_laws();
    read
}

/// Gets a key's bytes, which `fetch` gives if the cache lacks them, and reads the key: it reads the same bytes. They were whole
/// in the cache before, or were fetched. So what was missing or damaged is there now.
pub fn fetch_then_read<C: Clock, N: Names, F: FnOnce() -> Result<Vec<u8>>>(
    env: &mut Env<MemStore, C, N>,
    cache: &str,
    key: &str,
    fetch: F,
) -> Result<(Vec<u8>, Vec<u8>)>
    requires cache { IsCache cache.now env.old.store }
    requires call { F.pre fetch }
    ensures reads { ((v : Vec ℕ Global) → F.post fetch (Ok v) → length v.items < 2 ^ 64)
        → IfOk result (λ r. (r.1.items ≡ r.0.items)
        × (KeyLiesWhole cache.now key.now env.old.store r.0.items ⊎ F.post fetch (Ok r.0))) }
{
    let got = get_or_put_sync(env, cache, key, fetch);
    after_get_or_put::<C, N, F>(env, cache, key, &got);
    let got = got?;
    let read = read_sync(env, cache, key);
    after_read(env, cache, key, &read);
    let read = read?;
    Ok((got, read))
}
