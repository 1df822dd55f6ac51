//! Looks up keys, and goes on with what each lookup is for.
ghost use Rattle.std.specs.Prelude.{◌≡◌, IfOk, IfErr};
ghost use Rattle.cacache_core.specs.declared.errors.Error.TheVariants.{OutOfMemory};
ghost use Rattle.cacache_calls.specs.{Common.{go_on}, Reading.{found_for, found_in, after_bucket, no_bucket}, State.{looking as looking_state}};
ghost use Rattle.cacache_jobs.specs.JobStates.{Leads};

use crate::phase::{Phase, refused};
use crate::places::bucket_path;
use crate::stage::Stage;
use crate::{exporting, messages, reading, removing};
use cacache_calls::{Aim, Content, Found, Lookup, Refusal, Reply};
use cacache_core::bytes::Bytes;
use cacache_core::errors::{self, Error, Fault};
use cacache_core::integrity::Integrity;
use cacache_core::keeping::{beside, let_go};
use cacache_core::text::Text;
use cacache_entry::{Metadata, latest};
use cacache_store::store::{FileHandle, Step, TempHandle};
use std::alloc::Global;

/// Reads the bucket of the key.
pub(crate) fn start<F: FileHandle, T: TempHandle>(
    alloc: Global,
    lookup: Lookup,
) -> errors::Result<Phase<F, T>>
    ensures { Leads F.seen T.seen result (looking_state lookup) }
{
    let path = bucket_path(alloc, lookup.cache.as_str(), lookup.key.as_str());
    let (path, lookup) = beside(path, lookup)?;
    Ok(Phase::Wanting(Stage::Looking(lookup), Step::ReadAll(path)))
}

/// The integrity of an entry. Drops the entry's other parts.
fn integrity_of(found: Found) -> Integrity
    ensures { result ≡ found.integrity }
{
    let Metadata {
        key: _key,
        integrity,
        time: _,
        size: _,
        metadata: _metadata,
        raw_metadata: _raw_metadata,
    } = found.into_metadata();
    integrity
}

/// Does what the lookup is for, after it found this entry.
fn go_on_with_entry<F: FileHandle, T: TempHandle>(
    alloc: Global,
    lookup: Lookup,
    found: Found,
) -> errors::Result<Phase<F, T>>
    ensures { Leads F.seen T.seen result
        (found_for lookup lookup.aim (Some found)) }
{
    if let Aim::Report = &lookup.aim {
        let_go(lookup);
        return Ok(Phase::Over(Reply::LookedUp(Some(found))));
    }
    let integrity = integrity_of(found);
    let Lookup { cache, key, aim } = lookup;
    match aim {
        Aim::Read => reading::start(alloc, Content { cache, integrity }),
        Aim::Export(export) => exporting::start(alloc, Content { cache, integrity }, export),
        _ => removing::remove_key(alloc, cache.as_str(), key.as_str(), &integrity),
    }
}

/// Does what the lookup is for, after it found nothing.
fn go_on_without_entry<F: FileHandle, T: TempHandle>(
    alloc: Global,
    lookup: Lookup,
) -> errors::Result<Phase<F, T>>
    ensures { Leads F.seen T.seen result
        (found_for lookup lookup.aim None) }
{
    if let Aim::Report = &lookup.aim {
        let_go(lookup);
        return Ok(Phase::Over(Reply::LookedUp(None)));
    }
    if let Aim::Remove = &lookup.aim {
        let bucket = bucket_path(alloc, lookup.cache.as_str(), lookup.key.as_str());
        let_go(lookup);
        return removing::remove_bucket(bucket?);
    }
    let Lookup { cache, key, aim } = lookup;
    let_go(aim);
    Err(Error::EntryNotFound(cache, key))
}

/// The entry that the lookup finds in the bucket's bytes, if any.
#[tactic(auto, unfolding(cacache_calls::specs::Reading::found_in))]
fn entry_in(alloc: Global, lookup: &Lookup, bytes: &[u8]) -> errors::Result<Option<Found>>
    ensures found { IfOk result (λ found. found ≡ found_in lookup.now.key bytes.now) }
    ensures refused { IfErr result (λ e. e ≡ OutOfMemory) }
{
    let answer = latest(alloc, bytes, lookup.key.as_str())?;
    match answer.found {
        Some(metadata) => Ok(Some(Found::new(metadata))),
        None => Ok(None),
    }
}

/// Goes on after the step that reads the bucket. A missing bucket counts as an empty one.
pub(crate) fn after_bucket_read<F: FileHandle, T: TempHandle>(
    alloc: Global,
    lookup: Lookup,
    bytes: Result<Bytes, Refusal>,
) -> errors::Result<Phase<F, T>>
    ensures { Leads F.seen T.seen result
        (go_on bytes (no_bucket lookup) (after_bucket lookup)) }
{
    match bytes {
        Ok(bytes) => {
            let entry = entry_in(alloc, &lookup, bytes.as_slice());
            let_go(bytes);
            let (entry, lookup) = beside(entry, lookup)?;
            match entry {
                Some(entry) => go_on_with_entry(alloc, lookup, entry),
                None => go_on_without_entry(alloc, lookup),
            }
        }
        Err(Refusal::Fault(Fault::NotFound)) => go_on_without_entry(alloc, lookup),
        Err(refusal) => {
            let message = messages::looking(alloc, lookup.cache.as_str(), lookup.key.as_str());
            let_go(lookup);
            Err(refused(refusal, message))
        }
    }
}
