//! Removes one content, or one key.
ghost use Rattle.std.specs.Prelude.{◌≡◌, List, ℕ};
ghost use Rattle.cacache_calls.specs.{State.{over}, Steps.{bucket_path as bucket_path_of}, Removing.{remove_content as remove_content_of, remove_bucket as remove_bucket_of}, declared.reply.Reply.TheVariants.{Done}};
ghost use Rattle.cacache_jobs.specs.JobStates.{Leads};

use crate::phase::Phase;
use crate::places::{bucket_path, content_path};
use crate::stage::{Last, Stage, Then};
use cacache_core::errors;
use cacache_core::integrity::Integrity;
use cacache_core::keeping::beside;
use cacache_core::text::Text;
use cacache_store::store::{FileHandle, Step, TempHandle};
use std::alloc::Global;

/// Removes the content of an integrity.
pub(crate) fn remove_content<F: FileHandle, T: TempHandle>(
    alloc: Global,
    cache: &str,
    integrity: &Integrity,
) -> errors::Result<Phase<F, T>>
    ensures { Leads F.seen T.seen result
        (remove_content_of cache.now integrity.now (over Done)) }
{
    let path = content_path(alloc, cache, integrity)?;
    let named = path.clone()?;
    Ok(Phase::Wanting(
        Stage::Doing(Then::Finish(Last::RemoveContent(named))),
        Step::RemoveFile(path),
    ))
}

/// Removes the bucket at this path.
pub(crate) fn remove_bucket<F: FileHandle, T: TempHandle>(path: Text) -> errors::Result<Phase<F, T>>
    ensures { (cache : List ℕ) (key : List ℕ) → path ≡ bucket_path_of cache key
        → Leads F.seen T.seen result (remove_bucket_of cache key) }
{
    let named = path.clone()?;
    Ok(Phase::Wanting(
        Stage::Doing(Then::Finish(Last::RemoveBucket(named))),
        Step::RemoveFile(path),
    ))
}

/// Removes the content that the key's lookup found, and then the key's bucket.
pub(crate) fn remove_key<F: FileHandle, T: TempHandle>(
    alloc: Global,
    cache: &str,
    key: &str,
    integrity: &Integrity,
) -> errors::Result<Phase<F, T>>
    ensures { Leads F.seen T.seen result (remove_content_of cache.now integrity.now
        (remove_bucket_of cache.now key.now)) }
{
    let content = content_path(alloc, cache, integrity)?;
    let named: Result<_, _> = content.clone();
    let (named, content) = beside(named, content)?;
    let (bucket, (named, content)) = beside(bucket_path(alloc, cache, key), (named, content))?;
    Ok(Phase::Wanting(
        Stage::Doing(Then::RemoveBucket(named, bucket)),
        Step::RemoveFile(content),
    ))
}
