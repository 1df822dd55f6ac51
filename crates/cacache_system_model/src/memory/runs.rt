//! A store over a system in memory, with a log of the runs of its steps.
ghost use Rattle.cacache_store.specs.declared.store.step.Step.TheVariants as steps;
ghost use Rattle.cacache_folder.specs.FolderNumbers.{answered};
ghost use Rattle.cacache_system_model.specs.memory.{Machines.{calls_of}, Runs.{number_of, LogsRuns}};

use crate::memory::system::MemorySystem;
use cacache_core::bytes::Bytes;
use cacache_core::text::Text;
use cacache_folder::{SystemFile, SystemStore, SystemTemp};
use cacache_store::store::{Answer, Step, Store};

/// An answer of a store over a system in memory.
pub type MemoryAnswer = Answer<SystemFile<MemorySystem>, SystemTemp<MemorySystem>>;

/// Makes the missing folders of a path, and then puts a line at the end of a file.
///
/// The log of the store's system gains a run of each step's calls, one after the other, and the answers are theirs.
pub fn make_and_append(
    store: &mut SystemStore<MemorySystem>,
    folder: Text,
    path: Text,
    line: Bytes,
) -> (MemoryAnswer, MemoryAnswer)
    ensures { LogsRuns (steps.MakeDirs folder) (answered number_of result.0)
        (steps.Append path line) (answered number_of result.1)
        (calls_of store.old.runner.system) (calls_of store.new.runner.system) }
{
    let made = store.step(Step::MakeDirs(folder));
    let appended = store.step(Step::Append(path, line));
    (made, appended)
}
