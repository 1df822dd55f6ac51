//! How far a call is while one of its steps is outstanding, and how it goes on with the answer.
ghost use Rattle.cacache_store.specs.Plain.{plain_answer};
ghost use Rattle.cacache_calls.specs.{Common.{go_on, fails}, State.{State}, Table.{after}};
ghost use Rattle.cacache_jobs.specs.JobStates.{Leads, StageAt, ThenAt};

use crate::hashing::Hashing;
use crate::inserting::Insertion;
use crate::phase::{Phase, refused};
use crate::syncing::Syncing;
use crate::{
    exporting, hashing, inserting, linking, looking, messages, reading, removing, storing, walking,
};
use cacache_calls::answers::{
    bytes_of, done_of, got_of, synced_of, taken_of, there_of, written_of,
};
use cacache_calls::{Commit, Content, Lookup, Refusal, Reply, Target, Visit};
use cacache_core::bytes::Bytes;
use cacache_core::errors::{self, Fault};
use cacache_core::keeping::let_go;
use cacache_core::text::Text;
use cacache_store::store::{Answer, FileHandle, TempHandle};
use cacache_walks::Walk;
use std::alloc::{AllocError, Global};

/// The last action of a call, with the paths that its message names.
#[derive(Drop)]
pub enum Last {
    RemoveContent(Text),
    RemoveBucket(Text),
    /// The second path shares the storage of the content at the first.
    Reflink(Text, Text),
    /// The second path is another name of the content at the first.
    HardLink(Text, Text),
}

/// What a call does once its errand is done: once it made a folder, removed a file, or synced either. The value moves with
/// every step, so its large parts are boxed.
#[derive(Drop)]
pub enum Then<T> {
    /// Makes the temporary file at this path; these bytes are still to be written.
    Create(Box<Commit>, Bytes, Text),
    /// Moves the temporary file to the content's path, or syncs it first.
    Persist(Box<Commit>, T, Text),
    /// Syncs the next folder, or goes on if all are synced.
    Sync(Syncing),
    /// Appends the line to the bucket at this path.
    Append(Insertion, Bytes, Text),
    /// Removes the bucket at the second path, once the content at the first is removed.
    RemoveBucket(Text, Text),
    /// Makes a link to the target at the first path. The link goes to the second path, which is the content's.
    Symlink(Box<Commit>, Text, Text),
    /// The call is over.
    Finish(Last),
}

impl<T: TempHandle> Then<T> {
    /// The message if the errand before this one failed.
    fn message(&self, alloc: Global) -> Result<Text, AllocError> {
        match self {
            Then::Create(commit, _, _) => messages::making_temps(alloc, commit.cache.as_str()),
            Then::Persist(commit, _, _) => messages::making_contents(alloc, commit),
            Then::Sync(syncing) => syncing.message(alloc),
            Then::Append(insertion, _, _) => {
                messages::making_bucket(alloc, insertion.cache.as_str(), insertion.key.as_str())
            }
            Then::RemoveBucket(content, _) => messages::removing_content(alloc, content),
            Then::Symlink(commit, _, _) => messages::making_links(alloc, commit),
            Then::Finish(last) => messages::finishing(alloc, last),
        }
    }

    /// Goes on once the errand is done.
    fn start<F: FileHandle>(self, alloc: Global) -> errors::Result<Phase<F, T>>
        ensures { (next : State) → ThenAt T.seen self next → Leads F.seen T.seen result next }
    {
        match self {
            Then::Create(commit, rest, path) => Ok(storing::create(commit, rest, path)),
            Then::Persist(commit, file, path) => Ok(storing::move_in(commit, file, path)),
            Then::Sync(syncing) => syncing.next(alloc),
            Then::Append(insertion, line, path) => Ok(inserting::append(insertion, line, path)),
            Then::RemoveBucket(content, bucket) => {
                let_go(content);
                removing::remove_bucket(bucket)
            }
            Then::Symlink(commit, target, path) => linking::symlink(commit, target, path),
            Then::Finish(last) => {
                let_go(last);
                Ok(Phase::Over(Reply::Done))
            }
        }
    }

    /// Goes on after the errand, whether it is done or was refused.
    fn resume<F: FileHandle>(
        self,
        alloc: Global,
        done: Result<(), Refusal>,
    ) -> errors::Result<Phase<F, T>>
        ensures { (next : State) → ThenAt T.seen self next
            → Leads F.seen T.seen result (go_on done fails (λ _. next)) }
    {
        match done {
            Ok(()) => self.start(alloc),
            Err(refusal) => {
                let message = self.message(alloc);
                let_go(self);
                Err(refused(refusal, message))
            }
        }
    }
}

/// How far a call is: what it does now, and what it needs after that. A temporary file is kept here while no step carries
/// it. The value moves with every step, so its large parts are boxed.
#[derive(Drop)]
pub enum Stage<T> {
    /// A folder is being made, a file removed, or either synced.
    Doing(Then<T>),
    /// The temporary file is being made; these bytes are still to be written.
    Creating(Box<Commit>, Bytes),
    /// These bytes are being written.
    Writing(Box<Commit>, Bytes),
    /// The temporary file is being synced; then it goes to this path.
    Syncing(Box<Commit>, Text),
    /// The temporary file is becoming the content.
    Persisting(Box<Commit>),
    /// That, or the link to this target, failed with this fault. If the content is there anyway, the call goes on with it.
    Confirming(Box<Commit>, Option<Text>, Fault),
    /// The line, which has this size, is being appended.
    Appending(Insertion, usize),
    /// The bucket is being read.
    Looking(Lookup),
    /// The content is being read.
    Reading(Content),
    /// The store is being asked whether the content is there.
    Asking(Content),
    /// The store is being asked for the target's size.
    Sizing(Box<Target<u128>>),
    /// The file is being opened.
    Opening(Box<Hashing>),
    /// A piece of the file is being read, after this many bytes.
    Hashing(Box<Hashing>, usize),
    /// The content at the first path is being copied to the second; this many bytes were verified, if any.
    Copying(Text, Text, Option<u64>),
    /// A link to the target is becoming the content.
    Linking(Box<Commit>, Text),
    /// A walk is making this visit.
    Walking(Walk, Visit),
}

impl<T: TempHandle> Stage<T> {
    /// Goes on with the answer to the stage's step.
    pub(crate) fn resume<F: FileHandle>(
        self,
        alloc: Global,
        answer: Answer<F, T>,
    ) -> errors::Result<Phase<F, T>>
        ensures { (s : State) → StageAt T.seen self s
            → Leads F.seen T.seen result (after s (plain_answer F.seen T.seen answer)) }
    {
        match self {
            Stage::Doing(then) => then.resume(alloc, done_of(answer)),
            Stage::Creating(commit, rest) => storing::after_create(alloc, commit, rest, answer),
            Stage::Writing(commit, rest) => {
                storing::after_write(alloc, commit, rest, written_of(answer))
            }
            Stage::Syncing(commit, path) => storing::after_sync(
                alloc,
                commit,
                path,
                synced_of(answer),
            ),
            Stage::Persisting(commit) => storing::after_arrival(
                alloc,
                commit,
                None,
                done_of(answer),
            ),
            Stage::Confirming(commit, target, fault) => {
                storing::after_confirm(alloc, commit, target, fault, there_of(answer))
            }
            Stage::Appending(insertion, size) => {
                inserting::after_append(alloc, insertion, size, taken_of(answer))
            }
            Stage::Looking(lookup) => looking::after_bucket_read(alloc, lookup, bytes_of(answer)),
            Stage::Reading(content) => reading::after_read(alloc, content, bytes_of(answer)),
            Stage::Asking(content) => {
                let_go(content);
                reading::after_question(there_of(answer))
            }
            Stage::Sizing(target) => linking::after_size(alloc, target, answer),
            Stage::Opening(hashing) => hashing::after_open(alloc, hashing, answer),
            Stage::Hashing(hashing, size) => hashing::after_read(
                alloc,
                hashing,
                size,
                got_of(answer),
            ),
            Stage::Copying(from, to, verified) => {
                exporting::after_copy(alloc, from, to, verified, taken_of(answer))
            }
            Stage::Linking(commit, target) => {
                storing::after_arrival(alloc, commit, Some(target), done_of(answer))
            }
            Stage::Walking(walk, visit) => walking::resume(alloc, walk, visit, answer),
        }
    }
}
