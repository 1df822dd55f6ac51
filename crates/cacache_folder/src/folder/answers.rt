//! Answers to the steps that make, take or give a file.
ghost use Rattle.cacache_store.specs.Plain.{plain_answer};
ghost use Rattle.cacache_system.specs.declared.call.CallResult.TheVariants as says;
ghost use Rattle.cacache_system.specs.Seen.{said};
ghost use Rattle.cacache_folder.specs.{FolderHandles.{seen_file, seen_temp}, StepClauses.{Explains, AnswerFits, AnswersWhole, AnswersEnd}};

use crate::folder::faults::failed_answer;
use crate::folder::opened::SystemFile;
use crate::folder::temp::SystemTemp;
use cacache_core::text::Text;
use cacache_store::store::{Answer, Step};
use cacache_system::System;
use std::io;
use std::io::ErrorKind;

/// The answer to a `CreateTemp` of this path.
pub(crate) fn created<Y: System + Drop>(
    created: io::Result<(Y, Y::File)>,
    path: Text,
    reason: &mut Option<ErrorKind>,
) -> Answer<SystemFile<Y>, SystemTemp<Y>>
    ensures fits { AnswerFits {Y = Y} {F = Y.File} {D = Y.Folder} (Step.CreateTemp path) result }
    ensures whole { AnswersWhole {Y = Y} {F = Y.File} {D = Y.Folder} (Step.CreateTemp path) result }
    ensures explains { Explains reason.old reason.new (plain_answer seen_file seen_temp result) }
    ensures answer { AnswersEnd {Y = Y} {F = Y.File} {D = Y.Folder} Y.number (Step.CreateTemp path)
        (said (λ made. says.Opened (Y.number made.1)) created) result }
{
    match created {
        Ok((system, file)) => Answer::Temp(SystemTemp::new(system, file, path)),
        Err(error) => failed_answer(error, Step::CreateTemp(path), reason),
    }
}

/// The answer to a `SyncTemp` of this file.
pub(crate) fn synced<Y: System + Drop>(
    synced: io::Result<()>,
    temp: SystemTemp<Y>,
    reason: &mut Option<ErrorKind>,
) -> Answer<SystemFile<Y>, SystemTemp<Y>>
    ensures fits { AnswerFits {F = Y.File} (Step.SyncTemp temp) result }
    ensures whole { AnswersWhole {F = Y.File} (Step.SyncTemp temp) result }
    ensures explains { Explains reason.old reason.new (plain_answer seen_file seen_temp result) }
    ensures answer { AnswersEnd {F = Y.File} Y.number (Step.SyncTemp temp)
        (said (λ _. says.Done) synced) result }
{
    match synced {
        Ok(()) => Answer::Synced(temp.synced()),
        Err(error) => failed_answer(error, Step::SyncTemp(temp), reason),
    }
}

/// The answer to a `Persist` of this file to this path.
pub(crate) fn moved<Y: System + Drop>(
    moved: io::Result<()>,
    temp: SystemTemp<Y>,
    path: Text,
    reason: &mut Option<ErrorKind>,
) -> Answer<SystemFile<Y>, SystemTemp<Y>>
    ensures fits { AnswerFits {F = Y.File} (Step.Persist temp path) result }
    ensures whole { AnswersWhole {F = Y.File} (Step.Persist temp path) result }
    ensures explains { Explains reason.old reason.new (plain_answer seen_file seen_temp result) }
    ensures answer { AnswersEnd {F = Y.File} Y.number (Step.Persist temp path)
        (said (λ _. says.Done) moved) result }
{
    match moved {
        Ok(()) => {
            temp.close();
            Answer::Done
        }
        Err(error) => failed_answer(error, Step::Persist(temp, path), reason),
    }
}

/// The answer to an `Open` of this path.
pub(crate) fn readable<Y: System + Drop>(
    opened: io::Result<(Y, Y::File)>,
    path: Text,
    reason: &mut Option<ErrorKind>,
) -> Answer<SystemFile<Y>, SystemTemp<Y>>
    ensures fits { AnswerFits {Y = Y} {F = Y.File} {D = Y.Folder} (Step.Open path) result }
    ensures whole { AnswersWhole {Y = Y} {F = Y.File} {D = Y.Folder} (Step.Open path) result }
    ensures explains { Explains reason.old reason.new (plain_answer seen_file seen_temp result) }
    ensures answer { AnswersEnd {Y = Y} {F = Y.File} {D = Y.Folder} Y.number (Step.Open path)
        (said (λ made. says.Opened (Y.number made.1)) opened) result }
{
    match opened {
        Ok((system, file)) => Answer::File(SystemFile::new(system, file)),
        Err(error) => failed_answer(error, Step::Open(path), reason),
    }
}
