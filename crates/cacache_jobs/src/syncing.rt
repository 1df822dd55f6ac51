//! How a durable call waits for the device: it syncs a file, and then the folders that lead to it, from the deepest up.
ghost use Rattle.cacache_calls.specs.{Common.{sync_up as sync_up_of}, State.{State, doing, sync_file as sync_file_errand, sync_dir as sync_dir_errand}};
ghost use Rattle.cacache_jobs.specs.JobStates.{Leads, GoalAt};

use crate::inserting::Insertion;
use crate::messages;
use crate::phase::Phase;
use crate::stage::{Stage, Then};
use crate::storing::compare_and_index;
use cacache_calls::Commit;
use cacache_core::errors;
use cacache_core::keeping::beside;
use cacache_core::text::Text;
use cacache_store::store::{FileHandle, Step, TempHandle};
use std::alloc::{AllocError, Global};

/// What a durable call does once everything is synced.
#[derive(Drop)]
pub enum Goal {
    /// The content is at its place: compares it with what the caller expects.
    Place(Box<Commit>),
    /// The entry is in its bucket: answers.
    Answer(Insertion),
}

impl Goal {
    /// Goes on once everything is synced.
    fn reach<F: FileHandle, T: TempHandle>(self, alloc: Global) -> errors::Result<Phase<F, T>>
        ensures { (next : State) → GoalAt self next → Leads F.seen T.seen result next }
    {
        match self {
            Goal::Place(commit) => compare_and_index(alloc, commit),
            Goal::Answer(insertion) => Ok(Phase::Over(insertion.into_reply())),
        }
    }
}

/// The folders that are still to be synced, the deepest last, and what follows.
pub struct Syncing {
    /// The file or folder that is being synced now.
    pub at: Text,
    pub folders: Vec<Text>,
    pub goal: Goal,
}

// Written out so that a drop is a separate call: a proof about code that drops one needn't go through its fields.
impl Drop for Syncing {
    fn drop(self) {
        let Syncing {
            at: _at,
            folders: _folders,
            goal: _goal,
        } = self;
    }
}

impl Syncing {
    /// The message if the sync failed.
    pub(crate) fn message(&self, alloc: Global) -> Result<Text, AllocError> {
        messages::syncing(alloc, &self.at)
    }

    /// Goes on to the next folder, once the sync is done.
    pub(crate) fn next<F: FileHandle, T: TempHandle>(
        self,
        alloc: Global,
    ) -> errors::Result<Phase<F, T>>
        ensures { (next : State) → GoalAt self.goal next
            → Leads F.seen T.seen result (sync_up_of self.folders.items next) }
    {
        let Syncing {
            at: _at,
            folders,
            goal,
        } = self;
        sync_up(alloc, folders, goal)
    }
}

/// Syncs a folder before other folders.
fn sync_dir<F: FileHandle, T: TempHandle>(
    alloc: Global,
    folder: Text,
    folders: Vec<Text>,
    goal: Goal,
) -> errors::Result<Phase<F, T>>
    ensures { (next : State) → GoalAt goal next → Leads F.seen T.seen result
        (doing (sync_dir_errand folder) (sync_up_of folders.items next)) }
{
    let (at, (folders, goal)) = beside(folder.clone(), (folders, goal))?;
    let then = Then::Sync(Syncing { at, folders, goal });
    Ok(Phase::Wanting(Stage::Doing(then), Step::SyncDir(folder)))
}

/// Syncs the folders that lead down from the cache's own, starting with the last and going up.
#[tactic(auto, using(crate::proofs::WrittenCommits::last_first))]
pub(crate) fn sync_up<F: FileHandle, T: TempHandle>(
    alloc: Global,
    folders: Vec<Text>,
    goal: Goal,
) -> errors::Result<Phase<F, T>>
    ensures { (next : State) → GoalAt goal next
        → Leads F.seen T.seen result (sync_up_of folders.items next) }
{
    let mut folders = folders;
    match folders.pop() {
        Some(folder) => sync_dir(alloc, folder, folders, goal),
        None => goal.reach(alloc),
    }
}

/// Syncs a file before the folders that lead to it.
pub(crate) fn sync_file<F: FileHandle, T: TempHandle>(
    alloc: Global,
    file: Text,
    folders: Vec<Text>,
    goal: Goal,
) -> errors::Result<Phase<F, T>>
    ensures { (next : State) → GoalAt goal next → Leads F.seen T.seen result
        (doing (sync_file_errand file) (sync_up_of folders.items next)) }
{
    let (at, (folders, goal)) = beside(file.clone(), (folders, goal))?;
    let then = Then::Sync(Syncing { at, folders, goal });
    Ok(Phase::Wanting(Stage::Doing(then), Step::SyncFile(file)))
}
