//! Answers that give only a value.
ghost use Rattle.std.specs.{Prelude.{◌≡◌}, Result.{result_map_both}};
ghost use Rattle.cacache_store.specs.declared.store.answer.Answer.TheVariants as answers;

use crate::folder::AnswerOf;
use cacache_core::bytes::Bytes;
use cacache_store::store::{Answer, Listing};
use cacache_system::{FileInfo, System};
use std::io;

/// That it is done.
pub(crate) fn done<Y: System + Drop>(found: io::Result<()>) -> io::Result<AnswerOf<Y>>
    ensures { result ≡ result_map_both (λ _. answers.Done) (λ e. e) found }
{
    match found {
        Ok(()) => Ok(Answer::Done),
        Err(error) => Err(error),
    }
}

/// How many bytes were taken.
pub(crate) fn took<Y: System + Drop>(found: io::Result<usize>) -> io::Result<AnswerOf<Y>>
    ensures { result ≡ result_map_both (λ count. answers.Took count) (λ e. e) found }
{
    match found {
        Ok(count) => Ok(Answer::Took(count)),
        Err(error) => Err(error),
    }
}

/// The bytes of a file.
pub(crate) fn whole<Y: System + Drop>(found: io::Result<Bytes>) -> io::Result<AnswerOf<Y>>
    ensures { result ≡ result_map_both (λ bytes. answers.Bytes bytes) (λ e. e) found }
{
    match found {
        Ok(bytes) => Ok(Answer::Bytes(bytes)),
        Err(error) => Err(error),
    }
}

/// Whether something is there.
pub(crate) fn there<Y: System + Drop>(found: io::Result<bool>) -> io::Result<AnswerOf<Y>>
    ensures { result ≡ result_map_both (λ is. answers.There is) (λ e. e) found }
{
    match found {
        Ok(is_there) => Ok(Answer::There(is_there)),
        Err(error) => Err(error),
    }
}

/// How many bytes a file has.
pub(crate) fn length_of<Y: System + Drop>(found: io::Result<FileInfo>) -> io::Result<AnswerOf<Y>>
    ensures { result ≡ result_map_both (λ info. answers.Length info.size) (λ e. e) found }
{
    match found {
        Ok(info) => Ok(Answer::Length(info.size)),
        Err(error) => Err(error),
    }
}

/// What is in a folder.
pub(crate) fn listed<Y: System + Drop>(found: io::Result<Listing>) -> io::Result<AnswerOf<Y>>
    ensures { result ≡ result_map_both (λ names. answers.Names names) (λ e. e) found }
{
    match found {
        Ok(names) => Ok(Answer::Names(names)),
        Err(error) => Err(error),
    }
}
