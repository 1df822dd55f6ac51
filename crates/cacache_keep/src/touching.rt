//! The call that makes a key's entry a new one.
ghost use Rattle.std.specs.Prelude.{◌≡◌, IfOk, IfErr, OnOk};
ghost use Rattle.cacache_entry.specs.View.{found_view};
ghost use Rattle.cacache_jobs.specs.JobStates.{site_of};
ghost use Rattle.cacache_keep.specs.Touching.{ReadsClean, StopsChecking, StopsTouching, Touches, said_of};

use crate::checking::{OddLines, check};
use crate::odd::has_odd;
use crate::settling::read;
use cacache_core::errors::Result;
use cacache_entry::Metadata;
use cacache_jobs::bucket_path;
use cacache_store::env::{Clock, Env, Names};
use cacache_store::store::Store;
use cacache_sync::index::find;
use cacache_sync::put::index::insert;
use cacache_sync::put::opts::WriteOpts;
use std::alloc::Global;

/// What the entry says of its content, as options of another entry.
fn opts_of(found: Metadata) -> WriteOpts
    ensures { result ≡ said_of (found_view found) }
{
    let Metadata {
        key: _key,
        integrity,
        time: _,
        size,
        metadata,
        raw_metadata,
    } = found;
    let opts = WriteOpts::new()
        .integrity(integrity)
        .size(size)
        .metadata(metadata);
    match raw_metadata {
        Some(bytes) => opts.raw_metadata(bytes),
        None => opts,
    }
}

/// Makes sure that the key's bucket has no odd line.
fn check_bucket<S: Store>(alloc: Global, store: &mut S, cache: &str, key: &str) -> Result<()>
    ensures clean { OnOk result
        (ReadsClean cache.now key.now (S.log store.old) (S.log store.new)) }
    ensures stops { IfErr result
        (λ e. StopsChecking cache.now key.now e (S.log store.old) (S.log store.new)) }
{
    let path = bucket_path(alloc, cache, key)?;
    let bytes = read(alloc, store, &path)?;
    if has_odd(alloc, bytes.as_slice())? {
        return check(alloc, OddLines::Refuse, &[path]);
    }
    Ok(())
}

/// Marks a key as used now, so that `prune` counts it as new: it adds a copy of the key's entry with the clock's time.
/// Returns whether the key has an entry; if it has none, nothing changes. The content isn't asked for. The line isn't
/// synced: a loss of power may leave the old entry.
///
/// If somebody else writes or removes the key between the lookup and the new entry, that one hides it.
///
/// A line of the key's bucket with a right digest that this crate can't read is odd: it may be a newer entry of the key, which
/// another reader finds. So a key that has an entry isn't touched if its bucket has such a line: the call ends with an `IoError`
/// of `Unsupported`, which names the bucket, and nothing changes.
///
/// Errors are those of `metadata_sync`, that one, and an `IoError` if the bucket couldn't be read again, with which nothing
/// changes; and then those of `index::insert`, with which the key still leads where it led unless the whole line was appended.
pub fn touch<S: Store, C: Clock, N: Names>(
    env: &mut Env<S, C, N>,
    cache: &str,
    key: &str,
) -> Result<bool>
    ensures touches { IfOk result (λ touched. Touches S.log C.given cache.now key.now touched
        env.old env.new) }
    ensures stops { IfErr result (λ e. StopsTouching (site_of cache.now env.old.base 0) key.now e
        (S.log env.old.store) (S.log env.new.store)) }
    ensures names { env.new.names ≡ env.old.names }
    ensures base { env.new.base ≡ env.old.base }
{
    let Some(found) = find(env, cache, key)? else {
        return Ok(false);
    };
    check_bucket(env.alloc, &mut env.store, cache, key)?;
    let _integrity = insert(env, cache, key, opts_of(found))?;
    Ok(true)
}
