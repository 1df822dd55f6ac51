//! Reads contents, and asks whether one is there.
ghost use Rattle.cacache_calls.specs.{Common.{go_on, fails}, Reading.{checked as checked_of, answer_there, answer_absent}, declared.reply.Reply.TheVariants.{Exists}, Replies.{there_reply}, Runs.{reply_of}, State.{reading as reading_state, asking as asking_state}};
ghost use Rattle.std.specs.Prelude.{◌≡◌};
ghost use Rattle.cacache_jobs.specs.JobStates.{Leads};

use crate::messages;
use crate::phase::{Phase, refused};
use crate::places::content_path;
use crate::stage::Stage;
use cacache_calls::{Content, Refusal, Reply};
use cacache_core::bytes::Bytes;
use cacache_core::errors::{self, Error};
use cacache_store::store::{FileHandle, Step, TempHandle};
use std::alloc::Global;

/// Reads the content.
pub(crate) fn start<F: FileHandle, T: TempHandle>(
    alloc: Global,
    content: Content,
) -> errors::Result<Phase<F, T>>
    ensures { Leads F.seen T.seen result (reading_state content) }
{
    let path = content_path(alloc, content.cache.as_str(), &content.integrity)?;
    Ok(Phase::Wanting(Stage::Reading(content), Step::ReadAll(path)))
}

/// Asks whether the content is there.
pub(crate) fn ask<F: FileHandle, T: TempHandle>(
    alloc: Global,
    content: Content,
) -> errors::Result<Phase<F, T>>
    ensures { Leads F.seen T.seen result (asking_state content) }
{
    let path = content_path(alloc, content.cache.as_str(), &content.integrity)?;
    Ok(Phase::Wanting(Stage::Asking(content), Step::Exists(path)))
}

/// Answers the bytes if they meet the integrity.
fn answer_checked<F: FileHandle, T: TempHandle>(
    alloc: Global,
    content: Content,
    bytes: Bytes,
) -> errors::Result<Phase<F, T>>
    ensures { Leads F.seen T.seen result (checked_of content bytes) }
{
    match content.integrity.check(alloc, bytes.as_slice()) {
        Ok(_) => Ok(Phase::Over(Reply::Read(bytes))),
        Err(error) => Err(error),
    }
}

/// Goes on after the step that reads the content: answers its bytes if they meet the integrity.
pub(crate) fn after_read<F: FileHandle, T: TempHandle>(
    alloc: Global,
    content: Content,
    bytes: Result<Bytes, Refusal>,
) -> errors::Result<Phase<F, T>>
    ensures { Leads F.seen T.seen result (go_on bytes fails (checked_of content)) }
{
    match bytes {
        Ok(bytes) => answer_checked(alloc, content, bytes),
        Err(refusal) => Err(refused(refusal, messages::reading(alloc, &content))),
    }
}

/// Whether the content is there, by the store's answer. If the store failed with a fault, the content counts as absent.
///
/// `OutOfMemory` if memory was refused for the question.
pub fn is_there(there: Result<bool, Refusal>) -> errors::Result<bool>
    ensures { reply_of Exists result ≡ there_reply there }
{
    match there {
        Ok(there) => Ok(there),
        Err(Refusal::Fault(_)) => Ok(false),
        Err(Refusal::Memory) => Err(Error::OutOfMemory),
    }
}

/// Goes on after the store was asked whether the content is there.
pub(crate) fn after_question<F: FileHandle, T: TempHandle>(
    there: Result<bool, Refusal>,
) -> errors::Result<Phase<F, T>>
    ensures { Leads F.seen T.seen result (go_on there answer_absent answer_there) }
{
    Ok(Phase::Over(Reply::Exists(is_there(there)?)))
}
