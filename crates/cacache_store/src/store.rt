//! A store performs one step at a time and returns its answer.
ghost use Rattle.std.specs.Prelude.{◌≡◌, List, Option};
ghost use Rattle.cacache_store.specs.{declared.store.log.LogItem.{LogItem}, Plain.{plain_step, plain_answer, Fits, Logs}};

mod answer;
mod failing;
mod handles;
mod log;
mod plain;
mod stamps;
mod step;

pub use answer::{Answer, Kind, Listing, Name};
pub use failing::failed;
pub use handles::{FileHandle, OpenedFile, TempFile, TempHandle};
pub use log::LogItem;
pub use plain::{PlainFile, PlainTemp};
pub use stamps::Stamps;
pub use step::Step;

/// A step on plain files. Contracts see a step, and a log keeps it, in this form.
pub type PlainStep = Step<PlainFile, PlainTemp>;

/// An answer with plain files. Contracts see an answer, and a log keeps it, in this form.
pub type PlainAnswer = Answer<PlainFile, PlainTemp>;

/// The place of a cache: real folders, or a disk in memory.
pub trait Store: Drop {
    /// An open file.
    type File: OpenedFile;

    /// A temporary file that is being written.
    type Temp: TempFile;

    /// Everything that happened so far, oldest first, if the store keeps a log.
    ghost log: { Self → Option (List LogItem) };

    /// Performs one step and returns its answer. `Answer::Failed` says why the step failed. `Answer::NoMemory` returns
    /// the step: an allocation failed, and nothing changed.
    fn step(&mut self, step: Step<Self::File, Self::Temp>) -> Answer<Self::File, Self::Temp>
        ensures fits { Fits (plain_step Self.File.seen Self.Temp.seen step)
            (plain_answer Self.File.seen Self.Temp.seen result) }
        ensures logged { Logs (log self.old) (log self.new)
            (plain_step Self.File.seen Self.Temp.seen step)
            (plain_answer Self.File.seen Self.Temp.seen result) };

    /// Begins the walks of a call that changes what it finds in them: from now on the store may hold folders open, so that
    /// no link leads a change elsewhere. This is no step, and the log stays as it was. Most stores have nothing to do here.
    fn begin_walks(&mut self)
        ensures logged { log self.new ≡ log self.old }
    {}

    /// Ends the walks through folders that calls made: the store closes what it held open for them. This is no step, and
    /// the log stays as it was.
    fn end_walks(&mut self)
        ensures logged { log self.new ≡ log self.old };
}
