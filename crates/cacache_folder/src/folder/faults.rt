//! Answers to steps that the system refused.
ghost use Rattle.std.specs.Prelude.{◌≡◌};
ghost use Rattle.cacache_store.specs.Plain.{plain_step, plain_answer, Fits};
ghost use Rattle.cacache_folder.specs.{StepClauses.{may_do_a_part as does_a_part, HandsBackWhole, Explains, LeavesReason}, FolderHandles.{seen_file, seen_temp}, FolderNumbers.{numbered, answered}};
ghost use Rattle.std_io.specs.IoError.{error_kind};
ghost use Rattle.cacache_system.specs.AnswersOf.{leaves_a_part, failed_with, refuses_memory as is_no_memory};

use crate::folder::opened::SystemFile;
use crate::folder::temp::SystemTemp;
use cacache_core::errors::Fault;
use cacache_core::keeping::let_go;
use cacache_store::store::{Answer, Step};
use cacache_system::System;
use std::io;
use std::io::ErrorKind;

/// Whether memory was refused.
fn refuses_memory(kind: ErrorKind) -> bool
    ensures { result ≡ is_no_memory kind }
{
    matches!(kind, ErrorKind::OutOfMemory)
}

/// Whether the step may change something and then fail: it makes some of the folders, the empty file, the file or a
/// part of its line, or a part of a copy; or it syncs, and the system may have lost what it was to sync.
fn may_do_a_part<Y: System + Drop>(step: &Step<SystemFile<Y>, SystemTemp<Y>>) -> bool
    ensures plain { result ≡ does_a_part (plain_step seen_file seen_temp step.now) }
    ensures numbered { result ≡ leaves_a_part (numbered Y.number step.now) }
{
    matches!(
        step,
        Step::MakeDirs(_)
            | Step::CreateTemp(_)
            | Step::Append(_, _)
            | Step::Copy(_, _)
            | Step::SyncTemp(_)
            | Step::SyncFile(_)
            | Step::SyncDir(_)
    )
}

/// The answer to a step that failed with this error; the error's kind becomes the reason. Out of memory hands the
/// step back only if nothing can have changed.
pub(crate) fn failed_answer<Y: System + Drop>(
    error: io::Error,
    step: Step<SystemFile<Y>, SystemTemp<Y>>,
    reason: &mut Option<ErrorKind>,
) -> Answer<SystemFile<Y>, SystemTemp<Y>>
    ensures fits { Fits (plain_step seen_file seen_temp step)
        (plain_answer seen_file seen_temp result) }
    ensures whole { HandsBackWhole (plain_step seen_file seen_temp step)
        (plain_answer seen_file seen_temp result) }
    ensures explains { Explains reason.old reason.new (plain_answer seen_file seen_temp result) }
    ensures reason { LeavesReason (error_kind error) reason.new
        (plain_answer seen_file seen_temp result) }
    ensures answer { answered Y.number result
        ≡ failed_with (numbered Y.number step) (error_kind error) }
{
    let kind = error.kind();
    if refuses_memory(kind) && !may_do_a_part::<Y>(&step) {
        return Answer::NoMemory(step);
    }
    let_go(step);
    *reason = Some(kind);
    Answer::Failed(Fault::from(kind))
}
