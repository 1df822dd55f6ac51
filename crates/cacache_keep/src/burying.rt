//! Tombstones for keys that lead to no content.
ghost use Rattle.std.specs.Prelude.{◌≡◌, IfOk, IfErr, map};
ghost use Rattle.cacache_entry.specs.View.{found_view};
ghost use Rattle.cacache_jobs.specs.{Environment.{KeepsRest}, JobStates.{site_of}};
ghost use Rattle.cacache_keep.specs.{Repairing.{AsksFor, BuriesKey, LooksUp, StopsAsking, StopsBurying, StopsBuryingAll, StopsFate, StopsLooking}, Told.{BuriesAllAs, BuriesAs}};

use crate::missing::{Shown, confirm, look};
use cacache_core::errors::Result;
use cacache_core::integrity::Integrity;
use cacache_entry::Metadata;
use cacache_store::env::{Clock, Env, Names};
use cacache_store::store::Store;
use cacache_sync::exists_sync;
use cacache_sync::index::{delete, find};

/// Whether the content is missing. A no to the question alone doesn't say so: it must be confirmed.
fn is_lost<S: Store, C: Clock, N: Names>(
    env: &mut Env<S, C, N>,
    shown: &Shown,
    cache: &str,
    sri: &Integrity,
) -> Result<bool>
    ensures asks { IfOk result (λ lost. AsksFor (site_of cache.now env.old.base 0) shown.now
        sri.now lost (S.log env.old.store) (S.log env.new.store)) }
    ensures stops { IfErr result (λ e. StopsAsking (site_of cache.now env.old.base 0)
        shown.now sri.now e (S.log env.old.store) (S.log env.new.store)) }
    ensures rest { KeepsRest env.old env.new }
{
    if exists_sync(env, cache, sri)? {
        return Ok(false);
    }
    confirm(env.alloc, shown, cache, sri)?;
    Ok(true)
}

/// Whether the key leads to an entry whose content is missing.
fn leads_nowhere<S: Store, C: Clock, N: Names>(
    env: &mut Env<S, C, N>,
    shown: &Shown,
    cache: &str,
    key: &str,
) -> Result<bool>
    ensures looks { IfOk result (λ nowhere. LooksUp (site_of cache.now env.old.base 0)
        shown.now key.now nowhere (S.log env.old.store) (S.log env.new.store)) }
    ensures stops { IfErr result (λ e. StopsLooking (site_of cache.now env.old.base 0)
        shown.now e (S.log env.old.store) (S.log env.new.store)) }
    ensures rest { KeepsRest env.old env.new }
{
    match find(env, cache, key)? {
        Some(found) => is_lost(env, shown, cache, &found.integrity),
        None => Ok(false),
    }
}

/// Adds a tombstone for the key, if it leads to an entry without content. Returns whether the key is spared.
fn bury<S: Store, C: Clock, N: Names>(
    env: &mut Env<S, C, N>,
    shown: &Shown,
    cache: &str,
    key: &str,
) -> Result<bool>
    ensures buries { IfOk result (λ spared. BuriesKey (site_of cache.now env.old.base 0)
        shown.now key.now spared (S.log env.old.store) (S.log env.new.store)) }
    ensures stops { IfErr result (λ e. StopsFate (site_of cache.now env.old.base 0)
        shown.now key.now e (S.log env.old.store) (S.log env.new.store)) }
    ensures names { env.new.names ≡ env.old.names }
    ensures base { env.new.base ≡ env.old.base }
{
    if !leads_nowhere(env, shown, cache, key)? {
        return Ok(true);
    }
    delete(env, cache, key)?;
    Ok(false)
}

/// The same for the key of each of these entries. Returns those whose key got a tombstone.
fn bury_each<S: Store, C: Clock, N: Names>(
    env: &mut Env<S, C, N>,
    shown: &Shown,
    cache: &str,
    entries: Vec<Metadata>,
) -> Result<Vec<Metadata>>
    ensures buries { IfOk result (λ buried. BuriesAs (site_of cache.now env.old.base 0)
        shown.now entries.items buried.items (S.log env.old.store) (S.log env.new.store)) }
    ensures stops { IfErr result (λ e. StopsBurying (site_of cache.now env.old.base 0)
        shown.now (map found_view entries.items) e
        (S.log env.old.store) (S.log env.new.store)) }
    ensures names { env.new.names ≡ env.old.names }
    ensures base { env.new.base ≡ env.old.base }
{
    let mut buried = Vec::new(env.alloc);
    for entry in entries {
        if !bury(env, shown, cache, entry.key.as_str())? {
            buried.push(entry)?;
        }
    }
    Ok(buried)
}

/// The same after a walk through the contents, which confirms what is missing. Without entries nothing is done.
pub(crate) fn bury_all<S: Store, C: Clock, N: Names>(
    env: &mut Env<S, C, N>,
    cache: &str,
    entries: Vec<Metadata>,
) -> Result<Vec<Metadata>>
    ensures buries { IfOk result (λ buried. BuriesAllAs (site_of cache.now env.old.base 0)
        entries.items buried.items (S.log env.old.store) (S.log env.new.store)) }
    ensures stops { IfErr result (λ e. StopsBuryingAll (site_of cache.now env.old.base 0)
        (map found_view entries.items) e (S.log env.old.store) (S.log env.new.store)) }
    ensures names { env.new.names ≡ env.old.names }
    ensures base { env.new.base ≡ env.old.base }
{
    if entries.is_empty() {
        return Ok(entries);
    }
    let shown = look(env, cache)?;
    bury_each(env, &shown, cache, entries)
}
