//! The folders above those of buckets, which a durable compaction syncs once each, and all buckets of an index, which a
//! durable collection syncs before it removes anything.
ghost use Rattle.std.specs.Prelude.{◌≡◌, IfOk, IfErr, OnOk, true};
ghost use Rattle.cacache_store.specs.declared.store.answer.Answer.TheVariants as answers;
ghost use Rattle.cacache_store.specs.declared.store.step.Step.TheVariants as steps;
ghost use Rattle.cacache_calls.specs.SingleSteps.{Does, FailsAt};
ghost use Rattle.cacache_keep.specs.Syncing.{StopsAbove, StopsBuckets, StopsIndexSync, StopsInTurn, SyncsAbove, SyncsBuckets, SyncsIndex, SyncsInTurn, folders_above as folders_above_of};

use crate::buckets::{FoundBuckets, buckets_of};
use crate::rewriting::sync_bucket;
use cacache_calls::answers::done_of;
use cacache_core::errors::Result;
use cacache_core::paths::{INDEX_AREA, join};
use cacache_core::text::Text;
use cacache_jobs::refused;
use cacache_store::store::{Step, Store};
use std::alloc::{AllocError, Global};

/// The folder wasn't synced.
fn unsynced(alloc: Global, folder: &Text) -> std::result::Result<Text, AllocError> {
    Ok(Text::new(format!(in alloc; "Failed to sync folder {folder}")?))
}

/// Syncs the folder.
fn sync_folder<S: Store>(alloc: Global, store: &mut S, folder: &Text) -> Result<()>
    ensures syncs { OnOk result (Does (steps.SyncDir folder.now) answers.Done
        (S.log store.old) (S.log store.new)) }
    ensures stops { IfErr result (λ e. FailsAt (steps.SyncDir folder.now) e
        (S.log store.old) (S.log store.new)) }
{
    let place = folder.clone()?;
    match done_of(store.step(Step::SyncDir(place))) {
        Ok(()) => Ok(()),
        Err(refusal) => Err(refused(refusal, unsynced(alloc, folder))),
    }
}

/// Syncs these folders, in turn.
fn sync_each<S: Store>(alloc: Global, store: &mut S, folders: &[Text]) -> Result<()>
    ensures syncs { OnOk result
        (SyncsInTurn folders.now (S.log store.old) (S.log store.new)) }
    ensures stops { IfErr result
        (λ e. StopsInTurn folders.now e (S.log store.old) (S.log store.new)) }
{
    for folder in folders {
        sync_folder(alloc, store, folder)?;
    }
    Ok(())
}

/// The folders above those of buckets: these, which the index has, the index, and the cache. There are none without
/// one in the index.
fn folders_above(
    alloc: Global,
    cache: &str,
    tops: Vec<Text>,
) -> std::result::Result<Vec<Text>, AllocError>
    ensures { IfOk result
        (λ folders. folders.items ≡ folders_above_of cache.now tops.items) }
{
    let mut folders = tops;
    if !folders.is_empty() {
        folders.push(join(alloc, cache, INDEX_AREA)?)?;
        folders.push(Text::from_str(alloc, cache)?)?;
    }
    Ok(folders)
}

/// Syncs the folders above those of buckets, if that is asked for.
pub(crate) fn sync_above<S: Store>(
    alloc: Global,
    store: &mut S,
    durable: bool,
    cache: &str,
    tops: Vec<Text>,
) -> Result<()>
    ensures syncs { OnOk result
        (SyncsAbove durable cache.now tops.items (S.log store.old) (S.log store.new)) }
    ensures stops { IfErr result
        (λ e. StopsAbove durable cache.now tops.items e (S.log store.old) (S.log store.new)) }
{
    if !durable {
        return Ok(());
    }
    let folders = folders_above(alloc, cache, tops)?;
    sync_each(alloc, store, folders.as_slice())
}

/// Syncs the buckets at these paths and their folders, in turn.
fn sync_buckets<S: Store>(alloc: Global, store: &mut S, paths: &[Text]) -> Result<()>
    ensures syncs { OnOk result
        (SyncsBuckets paths.now (S.log store.old) (S.log store.new)) }
    ensures stops { IfErr result
        (λ e. StopsBuckets paths.now e (S.log store.old) (S.log store.new)) }
{
    for path in paths {
        sync_bucket(alloc, store, true, path)?;
    }
    Ok(())
}

/// Syncs all buckets of the cache's index, and the folders that lead to them.
fn sync_all<S: Store>(alloc: Global, store: &mut S, cache: &str) -> Result<()>
    ensures syncs { OnOk result
        (SyncsIndex true cache.now (S.log store.old) (S.log store.new)) }
    ensures stops { IfErr result
        (λ e. StopsIndexSync true cache.now e (S.log store.old) (S.log store.new)) }
{
    let FoundBuckets { tops, paths } = buckets_of(alloc, store, cache)?;
    sync_buckets(alloc, store, paths.as_slice())?;
    sync_above(alloc, store, true, cache, tops)?;
    Ok(())
}

/// The same, if that is asked for.
pub(crate) fn sync_index<S: Store>(
    alloc: Global,
    store: &mut S,
    durable: bool,
    cache: &str,
) -> Result<()>
    ensures syncs { OnOk result
        (SyncsIndex durable cache.now (S.log store.old) (S.log store.new)) }
    ensures stops { IfErr result
        (λ e. StopsIndexSync durable cache.now e (S.log store.old) (S.log store.new)) }
{
    if !durable {
        return Ok(());
    }
    sync_all(alloc, store, cache)
}
