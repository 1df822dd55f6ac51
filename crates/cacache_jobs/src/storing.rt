//! How a commit goes on: its bytes become a content, which is compared with what the caller expects. With a key, its entry
//! follows.
ghost use Rattle.std.specs.Prelude.{◌≡◌, ℕ, IfOk, IfErr, drop};
ghost use Rattle.cacache_core.specs.{Integrity.{integrity_under}, declared.errors.Error.TheVariants.{OutOfMemory}};
ghost use Rattle.cacache_store.specs.Plain.{plain_answer};
ghost use Rattle.cacache_calls.specs.{Answers.{temp_in}, Common.{go_on, fails}, Steps.{content_path as content_path_of, temp_path as temp_path_of, seen_by, written_as}, State.{Site, creating, syncing, persisting, confirming}, Storing.{persist as persist_of, write_rest as write_rest_of, placed as placed_of, secured as secured_of, secured_found as secured_found_of, move_in as move_in_of, indexed, after_write as after_write_of, after_confirm as after_confirm_of, put_commit, store as store_of}};
ghost use Rattle.cacache_jobs.specs.{JobStates.{Leads, PhaseAt}, LeadsOn.{LeadsSynced}};

use crate::brought::made_temp;
use crate::comparing::{compare_integrity, compare_size};
use crate::inserting::{entry_of, insert};
use crate::messages;
use crate::phase::{Phase, refused};
use crate::places::{content_folders, content_path, content_place};
use crate::stage::{Stage, Then};
use crate::syncing::{Goal, sync_file, sync_up};
use cacache_calls::answers::Written;
use cacache_calls::{Commit, Options, Put, Refusal, Reply};
use cacache_core::bytes::Bytes;
use cacache_core::errors::{self, Error, Fault};
use cacache_core::hasher::Hasher;
use cacache_core::integrity::{Algorithm, Integrity};
use cacache_core::keeping::{beside, let_go};
use cacache_core::paths::{Place, temp_place};
use cacache_core::text::Text;
use cacache_store::store::{Answer, FileHandle, Step, TempHandle};
use std::alloc::Global;

/// The integrity of a put's bytes.
fn computed_of(alloc: Global, algorithm: Algorithm, bytes: &[u8]) -> errors::Result<Integrity>
    ensures ok { IfOk result (λ i. i ≡ integrity_under algorithm bytes.now) }
    ensures err { IfErr result (λ e. e ≡ OutOfMemory) }
{
    let mut hasher = Hasher::new(algorithm);
    hasher.update(bytes);
    hasher.result(alloc)
}

/// The commit of a put, and the put's bytes. The integrity is computed before the first step.
fn commit_of(alloc: Global, cache: &str, put: Put) -> errors::Result<(Box<Commit>, Bytes)>
    ensures commit { IfOk result (λ r. r.0.value ≡ put_commit cache.now put) }
    ensures bytes { IfOk result (λ r. r.1 ≡ put.data) }
    ensures err { IfErr result (λ e. e ≡ OutOfMemory) }
{
    let (cache, put) = beside(Text::from_str(alloc, cache), put)?;
    let computed = computed_of(alloc, put.options.algorithm, put.data.as_slice());
    let (computed, (cache, put)) = beside(computed, (cache, put))?;
    let Put {
        key,
        data,
        moment,
        options,
    } = put;
    let count = data.len();
    let commit = Commit {
        cache,
        key,
        computed,
        count,
        moment,
        options,
    };
    Ok((Box::new(alloc, commit)?, data))
}

/// Begins a put.
#[tactic(auto, unfolding(cacache_calls::specs::Steps::temp_path, cacache_calls::specs::Steps::temp_folder))]
pub(crate) fn store<F: FileHandle, T: TempHandle>(
    alloc: Global,
    cache: &str,
    number: u64,
    put: Put,
) -> errors::Result<Phase<F, T>>
    ensures { (site : Site) → site.cache ≡ cache.now → site.number ≡ number
        → Leads F.seen T.seen result (store_of site put) }
{
    let (commit, data) = commit_of(alloc, cache, put)?;
    let Place { folder, path } = temp_place(alloc, cache, number)?;
    Ok(Phase::Wanting(
        Stage::Doing(Then::Create(commit, data, path)),
        Step::MakeDirs(folder),
    ))
}

/// Makes the temporary file at this path, once the folder of temporary files is there.
pub(crate) fn create<F: FileHandle, T: TempHandle>(
    commit: Box<Commit>,
    rest: Bytes,
    path: Text,
) -> Phase<F, T>
    ensures { (number : ℕ) → path ≡ temp_path_of commit.value.cache number
        → PhaseAt F.seen T.seen result (creating number commit.value rest) }
{
    Phase::Wanting(Stage::Creating(commit, rest), Step::CreateTemp(path))
}

/// Makes the content's folder, once the temporary file has all its bytes.
fn make_content_folder<F: FileHandle, T: TempHandle>(
    alloc: Global,
    commit: Box<Commit>,
    file: T,
) -> errors::Result<Phase<F, T>>
    ensures { Leads F.seen T.seen result (persist_of commit.value (T.seen file)) }
{
    let place = content_place(alloc, commit.cache.as_str(), &commit.computed)?;
    let Place { folder, path } = place;
    Ok(Phase::Wanting(
        Stage::Doing(Then::Persist(commit, file, path)),
        Step::MakeDirs(folder),
    ))
}

/// Like `make_content_folder`, for a commit that hasn't begun yet.
pub(crate) fn begin_commit<F: FileHandle, T: TempHandle>(
    alloc: Global,
    commit: Commit,
    file: T,
) -> errors::Result<Phase<F, T>>
    ensures { Leads F.seen T.seen result (persist_of commit (T.seen file)) }
{
    make_content_folder(alloc, Box::new(alloc, commit)?, file)
}

/// Writes the rest of the bytes, or goes on to the content's folder if none are left.
fn write_rest<F: FileHandle, T: TempHandle>(
    alloc: Global,
    commit: Box<Commit>,
    file: T,
    rest: Bytes,
) -> errors::Result<Phase<F, T>>
    ensures { Leads F.seen T.seen result (write_rest_of commit.value (T.seen file) rest) }
{
    if rest.is_empty() {
        return make_content_folder(alloc, commit, file);
    }
    let shared = rest.share()?;
    Ok(Phase::Wanting(Stage::Writing(commit, rest), Step::Write(file, shared)))
}

/// Goes on after the step that makes the temporary file.
#[tactic(auto, using(crate::proofs::Refusing::ends_refused))]
pub(crate) fn after_create<F: FileHandle, T: TempHandle>(
    alloc: Global,
    commit: Box<Commit>,
    rest: Bytes,
    answer: Answer<F, T>,
) -> errors::Result<Phase<F, T>>
    ensures { Leads F.seen T.seen result (go_on (temp_in (plain_answer F.seen T.seen answer)) fails
        (λ file. write_rest_of commit.value file rest)) }
{
    let file = made_temp(alloc, commit.cache.as_str(), answer)?;
    write_rest(alloc, commit, file, rest)
}

/// The bytes that are left after a write of this many.
#[tactic(auto, using(std::proofs::lemmas::List::drop_min))]
fn left_after(bytes: Bytes, count: usize) -> Bytes
    ensures { result ≡ drop count bytes }
{
    let count = count.min(bytes.len());
    bytes.rest(count)
}

/// Goes on after the step that writes these bytes.
pub(crate) fn after_write<F: FileHandle, T: TempHandle>(
    alloc: Global,
    commit: Box<Commit>,
    rest: Bytes,
    written: Result<Written<T>, Refusal>,
) -> errors::Result<Phase<F, T>>
    ensures { Leads F.seen T.seen result
        (go_on (seen_by (written_as T.seen) written) fails (after_write_of commit.value rest)) }
{
    let refusal = match written {
        Ok(Written { file, count }) => {
            if count > 0 {
                return write_rest(alloc, commit, file, left_after(rest, count));
            }
            Refusal::Fault(Fault::WriteZero)
        }
        Err(refusal) => refusal,
    };
    Err(refused(
        refusal,
        messages::writing(alloc, &commit.cache, &commit.key),
    ))
}

/// Moves the temporary file to the content's path.
fn persist<F: FileHandle, T: TempHandle>(commit: Box<Commit>, file: T, path: Text) -> Phase<F, T>
    ensures { path ≡ content_path_of commit.value.cache commit.value.computed
        → PhaseAt F.seen T.seen result (persisting commit.value (T.seen file)) }
{
    Phase::Wanting(Stage::Persisting(commit), Step::Persist(file, path))
}

/// Syncs the temporary file, before it goes to the content's path.
fn sync_temp<F: FileHandle, T: TempHandle>(commit: Box<Commit>, file: T, path: Text) -> Phase<F, T>
    ensures { path ≡ content_path_of commit.value.cache commit.value.computed
        → PhaseAt F.seen T.seen result (syncing commit.value (T.seen file)) }
{
    Phase::Wanting(Stage::Syncing(commit, path), Step::SyncTemp(file))
}

/// Moves the temporary file to the content's path, or syncs it first, once the content's folder is there.
pub(crate) fn move_in<F: FileHandle, T: TempHandle>(
    commit: Box<Commit>,
    file: T,
    path: Text,
) -> Phase<F, T>
    ensures { path ≡ content_path_of commit.value.cache commit.value.computed
        → PhaseAt F.seen T.seen result (move_in_of commit.value (T.seen file)) }
{
    if commit.options.durable {
        return sync_temp(commit, file, path);
    }
    persist(commit, file, path)
}

/// Goes on after the step that syncs the temporary file: moves it to the content's path.
pub(crate) fn after_sync<F: FileHandle, T: TempHandle>(
    alloc: Global,
    commit: Box<Commit>,
    path: Text,
    synced: Result<T, Refusal>,
) -> errors::Result<Phase<F, T>>
    ensures { LeadsSynced F.seen T.seen commit.value path synced result }
{
    match synced {
        Ok(file) => Ok(persist(commit, file, path)),
        Err(refusal) => Err(refused(refusal, messages::syncing(alloc, &path))),
    }
}

/// Goes on once the content arrived. A durable commit syncs the folders that lead to it.
fn secure<F: FileHandle, T: TempHandle>(
    alloc: Global,
    commit: Box<Commit>,
) -> errors::Result<Phase<F, T>>
    ensures { Leads F.seen T.seen result (secured_of commit.value) }
{
    if !commit.options.durable {
        return compare_and_index(alloc, commit);
    }
    let folders = content_folders(alloc, commit.cache.as_str(), &commit.computed)?;
    sync_up(alloc, folders, Goal::Place(commit))
}

/// Goes on once the content was found. A durable commit syncs the content as well as the folders.
fn secure_found<F: FileHandle, T: TempHandle>(
    alloc: Global,
    commit: Box<Commit>,
) -> errors::Result<Phase<F, T>>
    ensures { Leads F.seen T.seen result (secured_found_of commit.value) }
{
    if !commit.options.durable {
        return compare_and_index(alloc, commit);
    }
    let folders = content_folders(alloc, commit.cache.as_str(), &commit.computed)?;
    let path = content_path(alloc, commit.cache.as_str(), &commit.computed)?;
    sync_file(alloc, path, folders, Goal::Place(commit))
}

/// Goes on after the step that brings the content to its place: the temporary file itself, or a link to the target.
pub(crate) fn after_arrival<F: FileHandle, T: TempHandle>(
    alloc: Global,
    commit: Box<Commit>,
    target: Option<Text>,
    done: Result<(), Refusal>,
) -> errors::Result<Phase<F, T>>
    ensures { Leads F.seen T.seen result
        (go_on done (confirming commit.value) (λ _. secured_of commit.value)) }
{
    match done {
        Ok(()) => {
            let_go(target);
            secure(alloc, commit)
        }
        Err(Refusal::Fault(fault)) => {
            let path = content_path(alloc, commit.cache.as_str(), &commit.computed);
            let (path, (commit, target)) = beside(path, (commit, target))?;
            Ok(Phase::Wanting(Stage::Confirming(commit, target, fault), Step::Exists(path)))
        }
        Err(Refusal::Memory) => {
            let_go((commit, target));
            Err(Error::OutOfMemory)
        }
    }
}

/// Goes on after the store was asked whether the content is there anyway. Without a yes, the call answers the first fault.
pub(crate) fn after_confirm<F: FileHandle, T: TempHandle>(
    alloc: Global,
    commit: Box<Commit>,
    target: Option<Text>,
    fault: Fault,
    there: Result<bool, Refusal>,
) -> errors::Result<Phase<F, T>>
    ensures { Leads F.seen T.seen result
        (go_on there (λ _. fails fault) (after_confirm_of commit.value fault)) }
{
    let refusal = match there {
        Ok(true) => return secure_found(alloc, commit),
        Ok(false) | Err(Refusal::Fault(_)) => Refusal::Fault(fault),
        Err(Refusal::Memory) => Refusal::Memory,
    };
    Err(refused(refusal, messages::arriving(alloc, &commit, &target)))
}

/// Goes on once the content is as the caller expects. With a key, its entry follows.
fn index<F: FileHandle, T: TempHandle>(alloc: Global, commit: Commit) -> errors::Result<Phase<F, T>>
    ensures { Leads F.seen T.seen result (indexed commit commit.key) }
{
    let Commit {
        cache,
        key,
        computed,
        count,
        moment,
        options,
    } = commit;
    let Options {
        algorithm: _,
        size: _,
        integrity: expected,
        metadata,
        raw_metadata,
        durable,
    } = options;
    let Some(key) = key else {
        let_go((cache, expected, metadata, raw_metadata));
        return Ok(Phase::Over(Reply::Stored(computed)));
    };
    // the entry has the expected integrity, if there is one
    let integrity = expected.unwrap_or(computed);
    let text = integrity.to_string(alloc);
    let kept = (cache, key, integrity, metadata, raw_metadata);
    let (text, (cache, key, integrity, metadata, raw_metadata)) = beside(text, kept)?;
    let key = key.into_string();
    let entry = entry_of(
        alloc,
        key,
        Some(text),
        count,
        moment,
        metadata,
        raw_metadata,
    );
    let (entry, (cache, integrity)) = beside(entry, (cache, integrity))?;
    insert(alloc, cache, entry, durable, Some(integrity))
}

/// Compares the content at its place with what the caller expects: first the integrity, then the size.
pub(crate) fn compare_and_index<F: FileHandle, T: TempHandle>(
    alloc: Global,
    commit: Box<Commit>,
) -> errors::Result<Phase<F, T>>
    ensures { Leads F.seen T.seen result (placed_of commit.value) }
{
    compare_integrity(&commit)?;
    compare_size(&commit)?;
    index(alloc, Box::into_inner(commit))
}
