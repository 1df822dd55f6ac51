//! Reads what an answer to a step brought: for the stages of a job, and for callers that make the step themselves.
ghost use Rattle.cacache_store.specs.Plain.{plain_answer};
ghost use Rattle.cacache_calls.specs.Answers.{file_in, length_in, temp_in};
ghost use Rattle.cacache_jobs.specs.LeadsOn.{Brings};

use crate::messages;
use crate::phase::refused;
use cacache_calls::answers::{file_of, length_of, temp_of};
use cacache_core::errors::Result;
use cacache_core::text::Text;
use cacache_store::store::{Answer, FileHandle, TempHandle};
use std::alloc::Global;

/// The temporary file that the step was to make in the cache.
///
/// `IoError` reports that it wasn't made.
#[tactic(auto, using(crate::proofs::Refusing::refused_ends))]
pub fn made_temp<F: FileHandle, T: TempHandle>(
    alloc: Global,
    cache: &str,
    answer: Answer<F, T>,
) -> Result<T>
    ensures { Brings T.seen (temp_in (plain_answer F.seen T.seen answer)) result }
{
    match temp_of(answer) {
        Ok(file) => Ok(file),
        Err(refusal) => Err(refused(refusal, messages::creating(alloc, cache))),
    }
}

/// The file that the step was to open at the path: a content or a link's target.
///
/// `IoError` reports that it wasn't opened.
#[tactic(auto, using(crate::proofs::Refusing::refused_ends))]
pub fn opened_file<F: FileHandle, T: TempHandle>(
    alloc: Global,
    path: &Text,
    answer: Answer<F, T>,
) -> Result<F>
    ensures { Brings F.seen (file_in (plain_answer F.seen T.seen answer)) result }
{
    match file_of(answer) {
        Ok(file) => Ok(file),
        Err(refusal) => Err(refused(refusal, messages::opening(alloc, path))),
    }
}

/// The size in bytes of the link's target at the path, which the step was to find.
///
/// `IoError` reports that the size wasn't found.
#[tactic(auto, using(crate::proofs::Refusing::refused_ends))]
pub fn told_size<F: FileHandle, T: TempHandle>(
    alloc: Global,
    path: &Text,
    answer: Answer<F, T>,
) -> Result<u64>
    ensures { Brings (λ size. size) (length_in (plain_answer F.seen T.seen answer)) result }
{
    match length_of(answer) {
        Ok(size) => Ok(size),
        Err(refusal) => Err(refused(refusal, messages::sizing(alloc, path))),
    }
}
