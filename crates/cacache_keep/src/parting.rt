//! How the keys of entries are dropped: by a tombstone, or if there may be no room for one, by the removal of the bucket.
ghost use Rattle.std.specs.Prelude.{◌≡◌, IfOk, IfErr, OnOk, map};
ghost use Rattle.cacache_core.specs.declared.errors.Error.TheVariants.{OutOfMemory};
ghost use Rattle.cacache_entry.specs.View.{found_view};
ghost use Rattle.cacache_jobs.specs.JobStates.{site_of};
ghost use Rattle.cacache_keep.specs.Parting.{DropsKey, Parts, RemovesBucket, StopsParting, StopsRemovingBucket, StopsUnlinkingKey, UnlinksKey, leads_alone as leads_alone_of, may_be_full as may_be_full_of, unless_memory as unless_memory_of};

use crate::confirming::is_led;
use crate::odd::has_other;
use crate::rewriting::secure;
use crate::settling::read;
use cacache_calls::answers::done_of;
use cacache_core::errors::{Error, Fault, Result};
use cacache_core::keeping::let_go;
use cacache_core::text::Text;
use cacache_entry::{Metadata, latest};
use cacache_jobs::{bucket_path, refused};
use cacache_store::env::{Clock, Env, Names};
use cacache_store::store::{Step, Store};
use cacache_sync::index::delete;
use std::alloc::{AllocError, Global};

/// Entries, by what became of their keys.
#[derive(Drop)]
pub(crate) struct Parted {
    pub(crate) dropped: Vec<Metadata>,
    pub(crate) left: Vec<Metadata>,
}

/// Whether a full disk may be why a step failed so. No fault says that alone.
fn may_be_full(fault: Option<Fault>) -> bool
    ensures { result ≡ may_be_full_of fault }
{
    match fault {
        Some(Fault::Device) => true,
        Some(Fault::ShortAppend) => true,
        Some(Fault::WriteZero) => true,
        _ => false,
    }
}

/// Whether a bucket's bytes have lines of the entry's key alone, and it leads to the entry.
fn leads_alone(alloc: Global, bytes: &[u8], entry: &Metadata) -> Result<bool>
    ensures leads { IfOk result (λ yes. yes ≡ leads_alone_of (found_view entry.now) bytes.now) }
    ensures memory { IfErr result (λ e. e ≡ OutOfMemory) }
{
    if has_other(alloc, bytes, entry.key.as_str())? {
        return Ok(false);
    }
    let answer = latest(alloc, bytes, entry.key.as_str())?;
    Ok(is_led(answer.found, entry))
}

/// The bucket wasn't removed.
fn unremoved(alloc: Global, path: &Text) -> std::result::Result<Text, AllocError> {
    Ok(Text::new(format!(in alloc; "Failed to remove bucket {path}")?))
}

/// Removes the bucket at the path, and syncs its folder if that is to be durable.
fn remove_bucket<S: Store>(alloc: Global, store: &mut S, durable: bool, path: &Text) -> Result<()>
    ensures removes { OnOk result
        (RemovesBucket durable path.now (S.log store.old) (S.log store.new)) }
    ensures stops { IfErr result
        (λ e. StopsRemovingBucket durable path.now e (S.log store.old) (S.log store.new)) }
{
    let place = path.clone()?;
    match done_of(store.step(Step::RemoveFile(place))) {
        Ok(()) => secure(alloc, store, durable, path),
        Err(refusal) => Err(refused(refusal, unremoved(alloc, path))),
    }
}

/// Removes the bucket of the entry's key, if it leads to the entry alone. Returns whether it did.
fn unlink<S: Store>(
    alloc: Global,
    store: &mut S,
    durable: bool,
    cache: &str,
    entry: &Metadata,
) -> Result<bool>
    ensures unlinks { IfOk result (λ gone. UnlinksKey durable cache.now (found_view entry.now) gone
        (S.log store.old) (S.log store.new)) }
    ensures stops { IfErr result (λ e. StopsUnlinkingKey durable cache.now (found_view entry.now) e
        (S.log store.old) (S.log store.new)) }
{
    let path = bucket_path(alloc, cache, entry.key.as_str())?;
    let bytes = read(alloc, store, &path)?;
    if !leads_alone(alloc, bytes.as_slice(), entry)? {
        return Ok(false);
    }
    remove_bucket(alloc, store, durable, &path)?;
    Ok(true)
}

/// An error leaves the key as it is, except want of memory.
fn unless_memory(tried: Result<bool>) -> Result<bool>
    ensures { result ≡ unless_memory_of tried }
{
    match tried {
        Ok(gone) => Ok(gone),
        Err(Error::OutOfMemory) => Err(Error::OutOfMemory),
        Err(error) => {
            let_go(error);
            Ok(false)
        }
    }
}

/// Drops the key of the entry. Returns whether it did.
fn drop_key<S: Store, C: Clock, N: Names>(
    env: &mut Env<S, C, N>,
    durable: bool,
    cache: &str,
    entry: &Metadata,
) -> Result<bool>
    ensures drops { DropsKey durable (site_of cache.now env.old.base 0) (found_view entry.now)
        result (S.log env.old.store) (S.log env.new.store) }
    ensures names { env.new.names ≡ env.old.names }
    ensures base { env.new.base ≡ env.old.base }
{
    match delete(env, cache, entry.key.as_str()) {
        Ok(()) => Ok(true),
        Err(error) => {
            if !may_be_full(error.fault()) {
                return unless_memory(Err(error));
            }
            let_go(error);
            unless_memory(unlink(env.alloc, &mut env.store, durable, cache, entry))
        }
    }
}

/// Drops the keys of these entries, one after another. Only want of memory ends it.
pub(crate) fn part<S: Store, C: Clock, N: Names>(
    env: &mut Env<S, C, N>,
    durable: bool,
    cache: &str,
    entries: Vec<Metadata>,
) -> Result<Parted>
    ensures parts { IfOk result (λ p. Parts durable (site_of cache.now env.old.base 0)
        (map found_view entries.items) (map found_view p.dropped.items)
        (map found_view p.left.items) (S.log env.old.store) (S.log env.new.store)) }
    ensures stops { IfErr result (λ e. StopsParting durable (site_of cache.now env.old.base 0)
        (map found_view entries.items) e (S.log env.old.store) (S.log env.new.store)) }
    ensures names { env.new.names ≡ env.old.names }
    ensures base { env.new.base ≡ env.old.base }
{
    let mut dropped = Vec::new(env.alloc);
    let mut left = Vec::new(env.alloc);
    for entry in entries {
        if drop_key(env, durable, cache, &entry)? {
            dropped.push(entry)?;
        } else {
            left.push(entry)?;
        }
    }
    Ok(Parted { dropped, left })
}
