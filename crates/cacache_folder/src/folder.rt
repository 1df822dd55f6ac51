//! Real folders as a store.
ghost use Rattle.std.specs.Prelude.{◌≡◌, ◌++◌, ◌∷◌, []};
ghost use Rattle.cacache_store.specs.Plain.{plain_step, plain_answer, Fits, Logs};
ghost use Rattle.cacache_system.specs.AnswersOf.{StepRuns};
ghost use Rattle.cacache_folder.specs.{FolderHandles.{seen_file, seen_temp}, FolderNumbers.{numbered, answered}, StepClauses.{HandsBackWhole, Explains}, StepsMade.{StepsRun, log_of, CallsByLog}};

mod again;
mod answers;
mod copying;
mod entries;
mod escaped;
mod faults;
mod files;
mod folders;
mod fresh;
mod guess;
mod listing;
mod log;
mod opened;
mod paths;
mod refusing;
mod rewriting;
mod runner;
mod syncing;
mod temp;
mod values;
mod whole;

use cacache_core::errors::Fault;
use cacache_store::store::{Answer, Stamps, Step, Store};
use cacache_system::{Host, System};
use log::{Snapshot, StepLog};
pub use opened::{FolderFile, SystemFile};
use runner::Runner;
use std::io;
use std::io::ErrorKind;
use std::os::fd::AsRawFd;
use std::random::RandomSource;
use std::rt::Files;
pub use temp::{FolderTemp, SystemTemp};

/// The folders and files of a runtime's file system.
pub type FolderStore<R> = SystemStore<Host<R>>;

/// A step on the files of a system.
pub(crate) type StepOf<Y> = Step<SystemFile<Y>, SystemTemp<Y>>;

/// An answer with files of a system.
pub(crate) type AnswerOf<Y> = Answer<SystemFile<Y>, SystemTemp<Y>>;

/// The folders and files of a system, by the system's own rules. Each `Reflink` fails with `Unsupported`.
///
/// Its log takes no memory, since only clauses see it. If the system keeps a log too, the calls there since the store began are
/// those of the store's steps, one step after another. A store over a system that already made calls keeps no log.
///
/// A name that isn't UTF-8 is listed as an escaped name, so that it hides no other one. No step reaches what stands
/// under it.
///
/// A `Persist` to the path of the file that was read whole last replaces that file, and keeps its owner, its group and its
/// mode. If they can't be kept, the step fails, and the file stays as it was. Any other `Persist` leaves the temporary
/// file's own, so that its owner alone reads it.
///
/// A walk lists a folder and those below it, by their paths. Between `begin_walks` and `end_walks` the real system holds
/// the folders that lead to where the walk is, eight at most. Steps on what is below the first go to the folders that are
/// held, and not by path. If a link takes the place of one, a step that changes something there fails with
/// `NotADirectory`, or changes the folder that the walk had opened. The first folder is opened by its path, and a link to it
/// is followed. Without `/proc` its listing fails with `Unsupported`, and so does a `Persist` that keeps an owner. In any
/// walk a step fails so that would open what a listing found to be neither file, folder nor link, or a link to such.
#[derive(Drop)]
pub struct SystemStore<Y: System + Drop> {
    runner: Runner<Y>,
    log: StepLog<StepOf<Y>, AnswerOf<Y>>,
    began: Snapshot<Y>,
    pub ghost ran: { ∥ StepsRun Y.number log.items (Y.calls began.value) (Y.calls runner.system) ∥₁ },
}

impl<R: Files + RandomSource + AllocGlobal + Clone + Drop> SystemStore<Host<R>>
where
    R::File: AsRawFd,
{
    /// The store over the runtime's file system.
    pub fn new(rt: R) -> FolderStore<R>
        ensures system { result.runner.system.rt ≡ rt }
        ensures log { result.log.items ≡ [] }
    {
        SystemStore::over(Host::new(rt))
    }
}

impl<Y: System + AllocGlobal + Clone + Drop> SystemStore<Y> {
    /// The store over a system.
    pub fn over(system: Y) -> SystemStore<Y>
        ensures system { result.runner.system ≡ system }
        ensures began { result.began.value ≡ system }
        ensures log { result.log.items ≡ [] }
    {
        let began = Snapshot::of(&system);
        SystemStore {
            runner: Runner::over(system),
            log: StepLog::new(),
            began,
        }
    }

    /// The system's kind of error for the last step that failed, which says more than a `Fault` does: a full disk, a
    /// missing right and another device have kinds of their own. None before any step failed.
    ///
    /// Ask for it right after the call that failed: the call's `IoError` then has this kind's `Fault`. Each later
    /// step that fails puts its own kind here, and steps fail in calls that succeed too, as when a key has no bucket.
    /// A step that succeeds, or that is refused memory, leaves it. It isn't set by reads and writes of open handles,
    /// nor by an error that a call makes itself, as of a short append.
    ///
    /// After a hard link failed, for example, a caller may copy instead if no link can be made: the reason is another
    /// device (`CrossesDevices`), or a system without hard links (`Unsupported`).
    pub fn reason(&self) -> Option<ErrorKind>
        ensures { result ≡ self.now.runner.reason }
    {
        self.runner.reason
    }

    /// A law: however the log is cut in two, so are the store's steps and the calls of its system. So after a call, what
    /// the log gained divides the system's calls: those for the log before come first, and then the call's own.
    pub fn calls_by_log(&self)
        ensures parts { CallsByLog Y.number self.now.log.items (Y.calls self.now.began.value)
            (Y.calls self.now.runner.system) }
    {}
}

impl<Y: System + AllocGlobal + Clone + Drop> Store for SystemStore<Y> {
    type File = SystemFile<Y>;

    type Temp = SystemTemp<Y>;

    ghost log = { λ store. log_of (Y.calls store.began.value) store.log.items };

    fn step(&mut self, step: StepOf<Y>) -> AnswerOf<Y>
        ensures fits { Fits (plain_step seen_file seen_temp step)
            (plain_answer seen_file seen_temp result) }
        ensures logged { Logs (log_of (Y.calls self.old.began.value) self.old.log.items)
            (log_of (Y.calls self.new.began.value) self.new.log.items)
            (plain_step seen_file seen_temp step) (plain_answer seen_file seen_temp result) }
        ensures whole { HandsBackWhole (plain_step seen_file seen_temp step)
            (plain_answer seen_file seen_temp result) }
        ensures explains { Explains self.old.runner.reason self.new.runner.reason
            (plain_answer seen_file seen_temp result) }
        ensures ran { StepRuns (numbered Y.number step) (answered Y.number result)
            (Y.calls self.old.runner.system) (Y.calls self.new.runner.system) }
        ensures added { self.new.log.items ≡ self.old.log.items ++ (step, result) ∷ [] }
        ensures began { self.new.began.value ≡ self.old.began.value }
    {
        let made = Snapshot::of(&step);
        let answer = self.runner.step(step);
        let log = self.log.with(&made, &answer);
        self.log = log;
        answer
    }

    /// Holds the folders of walks open from now on.
    fn begin_walks(&mut self)
        ensures logged { log_of (Y.calls self.new.began.value) self.new.log.items
            ≡ log_of (Y.calls self.old.began.value) self.old.log.items }
        ensures calls { Y.calls self.new.runner.system ≡ Y.calls self.old.runner.system }
    {
        self.runner.system.begin_walks();
    }

    /// Closes the folders that walks hold open.
    fn end_walks(&mut self)
        ensures logged { log_of (Y.calls self.new.began.value) self.new.log.items
            ≡ log_of (Y.calls self.old.began.value) self.old.log.items }
        ensures calls { Y.calls self.new.runner.system ≡ Y.calls self.old.runner.system }
    {
        self.runner.system.end_walks();
    }
}

/// A time, or the fault that the system reports.
fn told(changed: io::Result<u64>) -> Result<u64, Fault> {
    match changed {
        Ok(changed) => Ok(changed),
        Err(error) => Err(Fault::from(error.kind())),
    }
}

impl<Y: System + AllocGlobal + Clone + Drop> Stamps for SystemStore<Y> {
    fn changed(&mut self, path: &str) -> Result<u64, Fault>
        ensures logged { log_of (Y.calls self.new.began.value) self.new.log.items
            ≡ log_of (Y.calls self.old.began.value) self.old.log.items }
        ensures calls { Y.calls self.new.runner.system ≡ Y.calls self.old.runner.system }
    {
        let changed = self.runner.system.changed(path);
        told(changed)
    }
}
