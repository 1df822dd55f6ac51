//! Exports of contents. An unchecked export is one step; a checked export first reads the content to its end.
ghost use Rattle.cacache_calls.specs.{Common.{go_on, fails}, Reading.{export as export_of, export_from as export_from_of, copied_count}, State.{over}, declared.reply.Reply.TheVariants.{Copied}};
ghost use Rattle.cacache_jobs.specs.JobStates.{Leads};

use crate::phase::{Phase, refused};
use crate::places::content_path;
use crate::stage::{Last, Stage, Then};
use crate::{hashing, messages};
use cacache_calls::{Content, Export, How, Refusal, Reply};
use cacache_core::errors;
use cacache_core::keeping::{beside, let_go};
use cacache_core::text::Text;
use cacache_store::store::{FileHandle, Step, TempHandle};
use std::alloc::Global;

/// Exports a content; a checked export opens it first.
pub(crate) fn start<F: FileHandle, T: TempHandle>(
    alloc: Global,
    content: Content,
    export: Export,
) -> errors::Result<Phase<F, T>>
    ensures { Leads F.seen T.seen result (export_of content export) }
{
    let from = content_path(alloc, content.cache.as_str(), &content.integrity);
    let (from, (content, export)) = beside(from, (content, export))?;
    if export.checked {
        return hashing::verify(alloc, content, from, export);
    }
    let_go(content);
    export_from(export.how, from, export.to, None)
}

/// Exports the file at a path, with the count of verified bytes, if any.
pub(crate) fn export_from<F: FileHandle, T: TempHandle>(
    how: How,
    from: Text,
    to: Text,
    verified: Option<u64>,
) -> errors::Result<Phase<F, T>>
    ensures { Leads F.seen T.seen result (export_from_of how from to verified) }
{
    let source: Result<_, _> = from.clone();
    let (source, (from, to)) = beside(source, (from, to))?;
    let target: Result<_, _> = to.clone();
    let (target, (from, to, source)) = beside(target, (from, to, source))?;
    Ok(match how {
        How::Copy => Phase::Wanting(
            Stage::Copying(from, to, verified),
            Step::Copy(source, target),
        ),
        How::Reflink => Phase::Wanting(
            Stage::Doing(Then::Finish(Last::Reflink(from, to))),
            Step::Reflink(source, target),
        ),
        How::HardLink => Phase::Wanting(
            Stage::Doing(Then::Finish(Last::HardLink(from, to))),
            Step::HardLink(source, target),
        ),
    })
}

/// Goes on after the step that copies the content. Answers the count of verified bytes, or the copy's own if none were.
pub(crate) fn after_copy<F: FileHandle, T: TempHandle>(
    alloc: Global,
    from: Text,
    to: Text,
    verified: Option<u64>,
    taken: Result<usize, Refusal>,
) -> errors::Result<Phase<F, T>>
    ensures { Leads F.seen T.seen result
        (go_on taken fails (λ n. over (Copied (copied_count verified n)))) }
{
    match taken {
        Ok(count) => {
            let count = match verified {
                Some(verified) => verified,
                None => count as u64,
            };
            Ok(Phase::Over(Reply::Copied(count)))
        }
        Err(refusal) => Err(refused(refusal, messages::copying(alloc, &from, &to))),
    }
}
