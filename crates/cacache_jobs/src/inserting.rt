//! Puts an entry into its bucket: tests the entry, makes the bucket's folder and appends once.
ghost use Rattle.std.specs.Prelude.{◌≡◌, None, IfOk, IfErr, OnOk, option_map, string_bytes, length};
ghost use Rattle.cacache_core.specs.declared.errors.Error.TheVariants.{OutOfMemory};
ghost use Rattle.cacache_calls.specs.{Common.{go_on, fails}, Inserting.{insert as insert_of, insertion as insertion_of, deletion as deletion_of, after_append as after_append_of, recorded, bucket_line, refused_cause, given_or, given_text, no_integrity as without_integrity}, Steps.{bucket_path as bucket_path_of}, State.{Insertion as Inserted, appending}, Runs.{EndsAs}};
ghost use Rattle.cacache_entry.specs.View.{entry_view};
ghost use Rattle.cacache_jobs.specs.{IntoBuckets.{entry_with, into_bucket}, JobStates.{Leads, PhaseAt, IsInsertion, insertion_reply}, LeadsOn.{LeadsInsert}};

use crate::messages;
use crate::phase::{Phase, refused};
use crate::places::{bucket_folders, bucket_path, bucket_place};
use crate::stage::{Stage, Then};
use crate::syncing::{Goal, sync_file};
use cacache_calls::{Delete, Insert, Json, Options, Refusal, Reply};
use cacache_core::bytes::Bytes;
use cacache_core::errors::{self, Fault};
use cacache_core::integrity::Integrity;
use cacache_core::keeping::beside;
use cacache_core::paths::Place;
use cacache_core::text::Text;
use cacache_entry::{SerializableMetadata, line};
use cacache_store::store::{FileHandle, Step, TempHandle};
use serde_json::Value;
use std::alloc::{AllocError, Global};

/// An entry on its way into its key's bucket, and what the call answers once the entry is there.
pub struct Insertion {
    pub cache: Text,
    pub key: String,
    /// Whether the bucket is synced before the call answers.
    pub durable: bool,
    /// What the call answers once the entry is there; None for a deletion, which answers nothing.
    pub integrity: Option<Integrity>,
}

// Written out so that a drop is a separate call: a proof about code that drops one needn't go through its fields.
impl Drop for Insertion {
    fn drop(self) {
        let Insertion {
            cache: _cache,
            key: _key,
            durable: _,
            integrity: _integrity,
        } = self;
    }
}

impl Insertion {
    /// What the call answers once the entry is in its bucket.
    pub(crate) fn into_reply(self) -> Reply
        ensures { result ≡ insertion_reply self.integrity }
    {
        let Insertion {
            cache: _cache,
            key: _key,
            durable: _,
            integrity,
        } = self;
        match integrity {
            Some(integrity) => Reply::Stored(integrity),
            None => Reply::Done,
        }
    }
}

/// Raw metadata in the form that an entry holds. The bytes inside are moved if nobody else owns them.
fn raw_of(alloc: Global, bytes: Option<Bytes>) -> Result<Option<Vec<u8>>, AllocError>
    ensures { IfOk result (λ raw. option_map (λ v. v.items) raw ≡ bytes) }
{
    match bytes {
        Some(bytes) => Ok(Some(bytes.into_vec(alloc)?)),
        None => Ok(None),
    }
}

/// The entry with these parts.
pub(crate) fn entry_of(
    alloc: Global,
    key: String,
    integrity: Option<String>,
    size: usize,
    moment: u128,
    metadata: Json,
    raw_metadata: Option<Bytes>,
) -> Result<SerializableMetadata, AllocError>
    ensures { IfOk result (λ entry. entry_view entry ≡ entry_with (string_bytes key)
        (option_map string_bytes integrity) size moment metadata raw_metadata) }
{
    let raw_metadata = raw_of(alloc, raw_metadata)?;
    Ok(SerializableMetadata {
        key,
        integrity,
        time: moment,
        size,
        metadata: metadata.into_value(),
        raw_metadata,
    })
}

/// The line that the bucket holds for an entry that can be written. The line of a durable commit ends with a line feed.
///
/// `SerdeError` if the entry can't be written.
#[tactic(auto, using(crate::proofs::Refusing::refusal_ends), unfolding(cacache_calls::specs::Inserting::bucket_line, cacache_calls::specs::Inserting::refused_cause))]
fn line_of(alloc: Global, entry: &SerializableMetadata, durable: bool) -> errors::Result<Bytes>
    ensures line { IfOk result (λ line. (j : Inserted) → j.entry ≡ entry_view entry.now
        → j.durable ≡ durable → line ≡ bucket_line j) }
    ensures fits { OnOk result ((j : Inserted) → j.entry ≡ entry_view entry.now
        → refused_cause j ≡ None) }
    ensures refused { IfErr result (λ e. (j : Inserted) → j.entry ≡ entry_view entry.now
        → EndsAs e (insert_of j)) }
{
    let mut line = line(alloc, entry)?;
    if durable {
        line.push(b'\n')?;
    }
    Ok(Bytes::new(alloc, line)?)
}

/// Makes the bucket's folder, for a line to append.
fn make_bucket<F: FileHandle, T: TempHandle>(
    alloc: Global,
    insertion: Insertion,
    line: Bytes,
) -> errors::Result<Phase<F, T>>
    ensures { (j : Inserted) → IsInsertion insertion j → line ≡ bucket_line j
        → Leads F.seen T.seen result (into_bucket j) }
{
    let place = bucket_place(alloc, insertion.cache.as_str(), insertion.key.as_str())?;
    let Place { folder, path } = place;
    Ok(Phase::Wanting(
        Stage::Doing(Then::Append(insertion, line, path)),
        Step::MakeDirs(folder),
    ))
}

/// The key of an entry. Drops the entry's other parts.
fn key_of(entry: SerializableMetadata) -> String
    ensures { string_bytes result ≡ string_bytes entry.key }
{
    entry.key
}

/// Tests the entry, and makes its bucket's folder.
pub(crate) fn insert<F: FileHandle, T: TempHandle>(
    alloc: Global,
    cache: Text,
    entry: SerializableMetadata,
    durable: bool,
    integrity: Option<Integrity>,
) -> errors::Result<Phase<F, T>>
    ensures { LeadsInsert F.seen T.seen cache entry durable integrity result }
{
    let line = line_of(alloc, &entry, durable)?;
    let key = key_of(entry);
    let insertion = Insertion {
        cache,
        key,
        durable,
        integrity,
    };
    make_bucket(alloc, insertion, line)
}

/// Appends the line, once the bucket's folder is there.
pub(crate) fn append<F: FileHandle, T: TempHandle>(
    insertion: Insertion,
    line: Bytes,
    path: Text,
) -> Phase<F, T>
    ensures { (j : Inserted) → IsInsertion insertion j → line ≡ bucket_line j
        → path ≡ bucket_path_of j.cache j.entry.key → PhaseAt F.seen T.seen result (appending j) }
{
    let size = line.len();
    Phase::Wanting(Stage::Appending(insertion, size), Step::Append(path, line))
}

/// Goes on once the line is in the bucket. A durable insertion syncs the bucket and the folders that lead to it.
fn record<F: FileHandle, T: TempHandle>(
    alloc: Global,
    insertion: Insertion,
) -> errors::Result<Phase<F, T>>
    ensures { (j : Inserted) → IsInsertion insertion j → Leads F.seen T.seen result (recorded j) }
{
    if !insertion.durable {
        return Ok(Phase::Over(insertion.into_reply()));
    }
    let folders = bucket_folders(alloc, insertion.cache.as_str(), insertion.key.as_str())?;
    let path = bucket_path(alloc, insertion.cache.as_str(), insertion.key.as_str())?;
    sync_file(alloc, path, folders, Goal::Answer(insertion))
}

/// Goes on after the step that appends the line, which has this size. A short append is not retried.
pub(crate) fn after_append<F: FileHandle, T: TempHandle>(
    alloc: Global,
    insertion: Insertion,
    size: usize,
    taken: Result<usize, Refusal>,
) -> errors::Result<Phase<F, T>>
    ensures { (j : Inserted) → IsInsertion insertion j → size ≡ length (bucket_line j)
        → Leads F.seen T.seen result (go_on taken fails (after_append_of j)) }
{
    let refusal = match taken {
        Ok(count) => {
            if size <= count {
                return record(alloc, insertion);
            }
            Refusal::Fault(Fault::ShortAppend)
        }
        Err(refusal) => refusal,
    };
    let message = messages::appending(alloc, insertion.cache.as_str(), insertion.key.as_str());
    Err(refused(refusal, message))
}

/// The integrity that an insertion answers if it was given none: `sha1-deadbeef`.
fn no_integrity(alloc: Global) -> errors::Result<Integrity>
    ensures ok { IfOk result (λ i. i ≡ without_integrity) }
    ensures err { IfErr result (λ e. e ≡ OutOfMemory) }
{
    Integrity::parse(alloc, "sha1-deadbeef")
}

/// The integrity that an insertion answers.
fn integrity_to_answer(alloc: Global, integrity: Option<Integrity>) -> errors::Result<Integrity>
    ensures ok { IfOk result (λ i. i ≡ given_or without_integrity integrity) }
    ensures err { IfErr result (λ e. e ≡ OutOfMemory) }
{
    match integrity {
        Some(integrity) => Ok(integrity),
        None => no_integrity(alloc),
    }
}

/// The text of the given integrity, if there is one.
fn text_of(alloc: Global, integrity: &Option<Integrity>) -> Result<Option<String>, AllocError>
    ensures { IfOk result (λ text. option_map string_bytes text ≡ given_text integrity.now) }
{
    match integrity {
        Some(integrity) => Ok(Some(integrity.to_string(alloc)?)),
        None => Ok(None),
    }
}

/// Begins an insertion. Without an integrity, its entry is a tombstone.
pub(crate) fn begin_insertion<F: FileHandle, T: TempHandle>(
    alloc: Global,
    cache: &str,
    insert_: Insert,
) -> errors::Result<Phase<F, T>>
    ensures { Leads F.seen T.seen result (insert_of (insertion_of cache.now insert_)) }
{
    let text = text_of(alloc, &insert_.options.integrity);
    let (text, insert_) = beside(text, insert_)?;
    let Insert {
        key,
        moment,
        options,
    } = insert_;
    let Options {
        algorithm: _,
        size,
        integrity,
        metadata,
        raw_metadata,
        durable,
    } = options;
    let size = size.unwrap_or(0);
    let key = key.into_string();
    let entry = entry_of(alloc, key, text, size, moment, metadata, raw_metadata);
    let (entry, integrity) = beside(entry, integrity)?;
    let (answered, entry) = beside(integrity_to_answer(alloc, integrity), entry)?;
    let (cache, (entry, answered)) = beside(Text::from_str(alloc, cache), (entry, answered))?;
    insert(alloc, cache, entry, durable, Some(answered))
}

/// Begins a deletion. Its entry is a tombstone.
pub(crate) fn begin_deletion<F: FileHandle, T: TempHandle>(
    alloc: Global,
    cache: &str,
    delete: Delete,
) -> errors::Result<Phase<F, T>>
    ensures { Leads F.seen T.seen result (insert_of (deletion_of cache.now delete)) }
{
    let null = Json::new(Value::Null);
    let Delete { key, moment } = delete;
    let key = key.into_string();
    let entry = entry_of(alloc, key, None, 0, moment, null, None)?;
    let (cache, entry) = beside(Text::from_str(alloc, cache), entry)?;
    insert(alloc, cache, entry, false, None)
}
