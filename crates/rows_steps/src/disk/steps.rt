//! Steps as words: the kind, and what it needs, as `Append f ab`.
use crate::disk::columns::Words;
use crate::disk::handles::{Handle, file_of, temp_of};
use crate::disk::words::{bytes_of, text_of};
use cacache_core::keeping::{beside, let_go};
use cacache_store::store::{PlainStep, Step};
use rows::Flaw;
use rows::words::number_of;
use std::alloc::Global;

/// A step on one path, by words.
fn one_path(alloc: Global, kind: &str, path: &str) -> Result<PlainStep, Flaw> {
    let path = text_of(alloc, path)?;
    match kind {
        "MakeDirs" => Ok(Step::MakeDirs(path)),
        "CreateTemp" => Ok(Step::CreateTemp(path)),
        "ReadAll" => Ok(Step::ReadAll(path)),
        "Open" => Ok(Step::Open(path)),
        "Size" => Ok(Step::Size(path)),
        "Exists" => Ok(Step::Exists(path)),
        "ReadDir" => Ok(Step::ReadDir(path)),
        "RemoveFile" => Ok(Step::RemoveFile(path)),
        "RemoveDir" => Ok(Step::RemoveDir(path)),
        "SyncFile" => Ok(Step::SyncFile(path)),
        "SyncDir" => Ok(Step::SyncDir(path)),
        _ => {
            let_go(path);
            Err(Flaw::NotRead)
        }
    }
}

/// A step on two paths, by words.
pub(crate) fn two_paths(
    alloc: Global,
    kind: &str,
    first: &str,
    second: &str,
) -> Result<PlainStep, Flaw> {
    let first = text_of(alloc, first)?;
    let (second, first) = beside(text_of(alloc, second), first)?;
    match kind {
        "Symlink" => Ok(Step::Symlink(first, second)),
        "Copy" => Ok(Step::Copy(first, second)),
        "Reflink" => Ok(Step::Reflink(first, second)),
        "HardLink" => Ok(Step::HardLink(first, second)),
        _ => {
            let_go((first, second));
            Err(Flaw::NotRead)
        }
    }
}

/// A write, by words.
fn writing(
    alloc: Global,
    held: &mut Option<Handle>,
    temp: &str,
    bytes: &str,
) -> Result<PlainStep, Flaw> {
    let bytes = bytes_of(alloc, bytes)?;
    let temp = temp_of(alloc, held, temp)?;
    Ok(Step::Write(temp, bytes))
}

/// A sync of a temporary file, by its word.
fn syncing(alloc: Global, held: &mut Option<Handle>, temp: &str) -> Result<PlainStep, Flaw> {
    let temp = temp_of(alloc, held, temp)?;
    Ok(Step::SyncTemp(temp))
}

/// A move of a temporary file, by words.
fn persisting(
    alloc: Global,
    held: &mut Option<Handle>,
    temp: &str,
    path: &str,
) -> Result<PlainStep, Flaw> {
    let path = text_of(alloc, path)?;
    let temp = temp_of(alloc, held, temp)?;
    Ok(Step::Persist(temp, path))
}

/// A read of an open file, by words.
fn reading(
    alloc: Global,
    held: &mut Option<Handle>,
    file: &str,
    size: &str,
) -> Result<PlainStep, Flaw> {
    let size = number_of(size)?;
    let file = file_of(alloc, held, file)?;
    Ok(Step::Read(file, size))
}

/// An append, by words.
pub(crate) fn appending(alloc: Global, path: &str, bytes: &str) -> Result<PlainStep, Flaw> {
    let path = text_of(alloc, path)?;
    let bytes = bytes_of(alloc, bytes)?;
    Ok(Step::Append(path, bytes))
}

/// The step that words say.
pub(crate) fn step_of(
    alloc: Global,
    held: &mut Option<Handle>,
    words: Words<'_>,
) -> Result<PlainStep, Flaw> {
    let Words {
        kind,
        first,
        second,
    } = words;
    let Some(second) = second else {
        return match kind {
            "SyncTemp" => syncing(alloc, held, first),
            _ => one_path(alloc, kind, first),
        };
    };
    match kind {
        "Write" => writing(alloc, held, first, second),
        "Persist" => persisting(alloc, held, first, second),
        "Read" => reading(alloc, held, first, second),
        "Append" => appending(alloc, first, second),
        _ => two_paths(alloc, kind, first, second),
    }
}
