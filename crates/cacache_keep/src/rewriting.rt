//! A file that is written anew: a temporary file is synced and moved over it. Its folder is synced if that is asked for,
//! and so is a file that stays as it is.
ghost use Rattle.std.specs.Prelude.{◌≡◌, [], IfOk, IfErr, OnOk};
ghost use Rattle.cacache_store.specs.declared.store.answer.Answer.TheVariants as answers;
ghost use Rattle.cacache_store.specs.declared.store.step.Step.TheVariants as steps;
ghost use Rattle.cacache_calls.specs.{SingleSteps.{Does, FailsAt}, Steps.{temp_folder as temp_folder_of, temp_path as temp_path_of}};
ghost use Rattle.cacache_keep.specs.Rewriting.{MakesTemp, Rewrites, StopsMaking, StopsRewriting, StopsSecuring, StopsSyncingBucket, StopsWriting, SyncsBucket, SyncsFolder, Took, folder_of as folder_of_path};

use cacache_calls::Refusal;
use cacache_calls::answers::{Written, done_of, synced_of, written_of};
use cacache_core::bytes::Bytes;
use cacache_core::errors::{Fault, Result};
use cacache_core::text::Text;
use cacache_jobs::{made_temp, messages, refused, temp_folder, temp_path};
use cacache_store::store::{Step, Store};
use std::alloc::{AllocError, Global};
use std::path::Path;

/// Makes the folder of temporary files.
fn make_folder<S: Store>(alloc: Global, store: &mut S, cache: &str) -> Result<()>
    ensures makes { OnOk result (Does (steps.MakeDirs (temp_folder_of cache.now)) answers.Done
        (S.log store.old) (S.log store.new)) }
    ensures stops { IfErr result (λ e. FailsAt (steps.MakeDirs (temp_folder_of cache.now)) e
        (S.log store.old) (S.log store.new)) }
{
    let folder = temp_folder(alloc, cache)?;
    match done_of(store.step(Step::MakeDirs(folder))) {
        Ok(()) => Ok(()),
        Err(refusal) => Err(refused(refusal, messages::making_temps(alloc, cache))),
    }
}

/// Makes a temporary file there.
fn make_file<S: Store>(alloc: Global, store: &mut S, cache: &str, number: u64) -> Result<S::Temp>
    ensures makes { IfOk result (λ file. Does (steps.CreateTemp (temp_path_of cache.now number))
        (answers.Temp (S.Temp.seen file)) (S.log store.old) (S.log store.new)) }
    ensures stops { IfErr result (λ e. FailsAt (steps.CreateTemp (temp_path_of cache.now number)) e
        (S.log store.old) (S.log store.new)) }
{
    let path = temp_path(alloc, cache, number)?;
    made_temp(alloc, cache, store.step(Step::CreateTemp(path)))
}

/// Makes both.
fn make_temp<S: Store>(alloc: Global, store: &mut S, cache: &str, number: u64) -> Result<S::Temp>
    ensures makes { IfOk result (λ file. MakesTemp cache.now (S.Temp.seen file)
        (S.log store.old) (S.log store.new)) }
    ensures stops { IfErr result
        (λ e. StopsMaking cache.now e (S.log store.old) (S.log store.new)) }
{
    match make_folder(alloc, store, cache) {
        Ok(()) => make_file(alloc, store, cache, number),
        Err(error) => Err(error),
    }
}

/// The file wasn't written anew.
fn unwritten(alloc: Global, path: &Text) -> std::result::Result<Text, AllocError> {
    Ok(Text::new(format!(in alloc; "Failed to write bucket {path} anew")?))
}

/// Writes the bytes to the temporary file, in as many writes as that takes.
fn write_all<S: Store>(
    alloc: Global,
    store: &mut S,
    path: &Text,
    file: S::Temp,
    bytes: Bytes,
) -> Result<S::Temp>
    ensures writes { IfOk result (λ full. Took (S.Temp.seen file) bytes (S.Temp.seen full) []
        (S.log store.old) (S.log store.new)) }
    ensures stops { IfErr result
        (λ e. StopsWriting (S.Temp.seen file) bytes e (S.log store.old) (S.log store.new)) }
{
    let mut file = file;
    let mut rest = bytes;
    'writes: loop {
        if rest.is_empty() {
            return Ok(file);
        }
        let shared = rest.share()?;
        match written_of(store.step(Step::Write(file, shared))) {
            Ok(written) => {
                let Written { file: next, count } = written;
                if count == 0 {
                    let refusal = Refusal::Fault(Fault::WriteZero);
                    return Err(refused(refusal, unwritten(alloc, path)));
                }
                rest = rest.rest(count);
                file = next;
            }
            Err(refusal) => return Err(refused(refusal, unwritten(alloc, path))),
        }
    }
}

/// The temporary file wasn't synced, and not moved.
fn unsynced(alloc: Global, path: &Text) -> std::result::Result<Text, AllocError> {
    Ok(Text::new(format!(in alloc; "Failed to sync the new bytes of bucket {path}")?))
}

/// Syncs the temporary file for the path. A move of unsynced bytes may take a line that was put durably.
fn sync_temp<S: Store>(alloc: Global, store: &mut S, file: S::Temp, path: &Text) -> Result<S::Temp>
    ensures same { IfOk result (λ synced. S.Temp.seen synced ≡ S.Temp.seen file) }
    ensures syncs { OnOk result (Does (steps.SyncTemp (S.Temp.seen file))
        (answers.Synced (S.Temp.seen file)) (S.log store.old) (S.log store.new)) }
    ensures stops { IfErr result (λ e. FailsAt (steps.SyncTemp (S.Temp.seen file)) e
        (S.log store.old) (S.log store.new)) }
{
    match synced_of(store.step(Step::SyncTemp(file))) {
        Ok(file) => Ok(file),
        Err(refusal) => Err(refused(refusal, unsynced(alloc, path))),
    }
}

/// Moves the temporary file to the path.
fn move_to<S: Store>(alloc: Global, store: &mut S, file: S::Temp, path: &Text) -> Result<()>
    ensures moves { OnOk result (Does (steps.Persist (S.Temp.seen file) path.now) answers.Done
        (S.log store.old) (S.log store.new)) }
    ensures stops { IfErr result (λ e. FailsAt (steps.Persist (S.Temp.seen file) path.now) e
        (S.log store.old) (S.log store.new)) }
{
    let place = path.clone()?;
    match done_of(store.step(Step::Persist(file, place))) {
        Ok(()) => Ok(()),
        Err(refusal) => Err(refused(refusal, unwritten(alloc, path))),
    }
}

/// The folder that holds what is at the path.
pub(crate) fn folder_of(alloc: Global, path: &Text) -> std::result::Result<Text, AllocError>
    ensures { IfOk result (λ folder. folder ≡ folder_of_path path.now) }
{
    match Path::new(path.as_str()).parent() {
        Some(folder) => Text::from_str(alloc, folder.as_str()),
        None => path.clone(),
    }
}

/// The folder wasn't synced.
fn unsecured(alloc: Global, path: &Text) -> std::result::Result<Text, AllocError> {
    Ok(Text::new(format!(in alloc; "Failed to sync the folder of bucket {path}")?))
}

/// Syncs the folder of the path.
fn sync_folder<S: Store>(alloc: Global, store: &mut S, path: &Text) -> Result<()>
    ensures syncs { OnOk result (Does (steps.SyncDir (folder_of_path path.now)) answers.Done
        (S.log store.old) (S.log store.new)) }
    ensures stops { IfErr result (λ e. FailsAt (steps.SyncDir (folder_of_path path.now)) e
        (S.log store.old) (S.log store.new)) }
{
    let folder = folder_of(alloc, path)?;
    match done_of(store.step(Step::SyncDir(folder))) {
        Ok(()) => Ok(()),
        Err(refusal) => Err(refused(refusal, unsecured(alloc, path))),
    }
}

/// The same, if that is asked for.
pub(crate) fn secure<S: Store>(
    alloc: Global,
    store: &mut S,
    durable: bool,
    path: &Text,
) -> Result<()>
    ensures syncs { OnOk result
        (SyncsFolder durable path.now (S.log store.old) (S.log store.new)) }
    ensures stops { IfErr result
        (λ e. StopsSecuring durable path.now e (S.log store.old) (S.log store.new)) }
{
    if !durable {
        return Ok(());
    }
    sync_folder(alloc, store, path)
}

/// The file wasn't synced.
fn unsynced_file(alloc: Global, path: &Text) -> std::result::Result<Text, AllocError> {
    Ok(Text::new(format!(in alloc; "Failed to sync bucket {path}")?))
}

/// Syncs the file at the path.
fn sync_file<S: Store>(alloc: Global, store: &mut S, path: &Text) -> Result<()>
    ensures syncs { OnOk result (Does (steps.SyncFile path.now) answers.Done
        (S.log store.old) (S.log store.new)) }
    ensures stops { IfErr result (λ e. FailsAt (steps.SyncFile path.now) e
        (S.log store.old) (S.log store.new)) }
{
    let place = path.clone()?;
    match done_of(store.step(Step::SyncFile(place))) {
        Ok(()) => Ok(()),
        Err(refusal) => Err(refused(refusal, unsynced_file(alloc, path))),
    }
}

/// Syncs the file at the path and then its folder, if that is asked for.
pub(crate) fn sync_bucket<S: Store>(
    alloc: Global,
    store: &mut S,
    durable: bool,
    path: &Text,
) -> Result<()>
    ensures syncs { OnOk result
        (SyncsBucket durable path.now (S.log store.old) (S.log store.new)) }
    ensures stops { IfErr result
        (λ e. StopsSyncingBucket durable path.now e (S.log store.old) (S.log store.new)) }
{
    if !durable {
        return Ok(());
    }
    sync_file(alloc, store, path)?;
    sync_folder(alloc, store, path)
}

/// Writes the bytes to a temporary file of this number, syncs it, and moves it to the path. A file there is whole at any
/// time: it has its old bytes, or these. If that is durable, the path's folder is synced after the move.
pub(crate) fn rewrite<S: Store>(
    alloc: Global,
    store: &mut S,
    durable: bool,
    cache: &str,
    number: u64,
    path: &Text,
    bytes: Bytes,
) -> Result<()>
    ensures rewrites { OnOk result
        (Rewrites durable cache.now path.now bytes (S.log store.old) (S.log store.new)) }
    ensures stops { IfErr result (λ e. StopsRewriting durable cache.now path.now bytes e
        (S.log store.old) (S.log store.new)) }
{
    let file = make_temp(alloc, store, cache, number)?;
    let file = write_all(alloc, store, path, file, bytes)?;
    let file = sync_temp(alloc, store, file, path)?;
    move_to(alloc, store, file, path)?;
    secure(alloc, store, durable, path)
}
