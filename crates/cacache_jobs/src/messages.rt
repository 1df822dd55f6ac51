//! The messages of a call if a step fails. No contract covers these texts; tests show them.
use crate::hashing::Hashing;
use crate::places::{bucket_path, bucket_place, content_path, content_place, temp_folder};
use crate::stage::Last;
use cacache_calls::{Commit, Content};
use cacache_core::text::Text;
use std::alloc::{AllocError, Global};

/// Some words, and the path that they are about.
fn at(alloc: Global, words: &str, path: &Text) -> Result<Text, AllocError> {
    Ok(Text::new(format!(in alloc; "{words}{path}")?))
}

/// Like `at`, with the path in quotes.
fn at_quoted(alloc: Global, words: &str, path: &Text) -> Result<Text, AllocError> {
    Ok(Text::new(format!(in alloc; "{words}{path:?}")?))
}

/// Some words, and the two paths that they are about.
fn between(alloc: Global, words: &str, from: &Text, to: &Text) -> Result<Text, AllocError> {
    Ok(Text::new(format!(in alloc; "{words}{from} to {to}")?))
}

/// The folder of temporary files wasn't made.
pub fn making_temps(alloc: Global, cache: &str) -> Result<Text, AllocError> {
    let folder = temp_folder(alloc, cache)?;
    let words = "Failed to create cache directory for temporary files, at ";
    at(alloc, words, &folder)
}

/// The temporary file wasn't made.
pub fn creating(alloc: Global, cache: &str) -> Result<Text, AllocError> {
    let folder = temp_folder(alloc, cache)?;
    let words = "Failed to create temp file while initializing a writer, inside ";
    at(alloc, words, &folder)
}

pub fn writing(alloc: Global, cache: &Text, key: &Option<Text>) -> Result<Text, AllocError> {
    let message = match key {
        Some(key) => format!(in alloc;
            "Failed to write to cache data for key {key} for cache at {cache:?}"
        )?,
        None => format!(in alloc; "Failed to write to cache data for cache at {cache:?}")?,
    };
    Ok(Text::new(message))
}

pub(crate) fn making_contents(alloc: Global, commit: &Commit) -> Result<Text, AllocError> {
    let place = content_place(alloc, commit.cache.as_str(), &commit.computed)?;
    let words = "Failed to create destination directory for cache contents, at ";
    at(alloc, words, &place.folder)
}

/// The content didn't arrive at its place: the temporary file, or a link to the target.
pub(crate) fn arriving(
    alloc: Global,
    commit: &Commit,
    target: &Option<Text>,
) -> Result<Text, AllocError> {
    let path = content_path(alloc, commit.cache.as_str(), &commit.computed)?;
    match target {
        None => {
            let words = "Failed to persist cache contents while closing writer, at ";
            at(alloc, words, &path)
        }
        Some(target) => Ok(Text::new(format!(in alloc;
            "Failed to create cache symlink for {target} at {path}"
        )?)),
    }
}

/// The file or folder at the path wasn't synced.
pub(crate) fn syncing(alloc: Global, path: &Text) -> Result<Text, AllocError> {
    at(alloc, "Failed to sync cache at ", path)
}

/// The folder of a key's bucket wasn't made.
pub fn making_bucket(alloc: Global, cache: &str, key: &str) -> Result<Text, AllocError> {
    let place = bucket_place(alloc, cache, key)?;
    at_quoted(
        alloc,
        "Failed to create index bucket directory: ",
        &place.folder,
    )
}

/// A line was not appended to a key's bucket, or only in part.
pub fn appending(alloc: Global, cache: &str, key: &str) -> Result<Text, AllocError> {
    let bucket = bucket_path(alloc, cache, key)?;
    at_quoted(alloc, "Failed to write to index bucket at ", &bucket)
}

/// A key's bucket couldn't be read.
pub fn looking(alloc: Global, cache: &str, key: &str) -> Result<Text, AllocError> {
    let bucket = bucket_path(alloc, cache, key)?;
    at_quoted(alloc, "Failed to read index bucket entries from ", &bucket)
}

pub(crate) fn reading(alloc: Global, content: &Content) -> Result<Text, AllocError> {
    let path = content_path(alloc, content.cache.as_str(), &content.integrity)?;
    at(alloc, "Failed to read contents for file at ", &path)
}

/// The content that a key's lookup found wasn't removed.
pub(crate) fn removing_content(alloc: Global, path: &Text) -> Result<Text, AllocError> {
    at_quoted(alloc, "Failed to remove content at ", path)
}

/// The last action of the call failed.
pub(crate) fn finishing(alloc: Global, last: &Last) -> Result<Text, AllocError> {
    match last {
        Last::RemoveContent(path) => at(alloc, "Failed to remove cache file ", path),
        Last::RemoveBucket(path) => at_quoted(alloc, "Failed to remove bucket at ", path),
        Last::Reflink(from, to) => {
            between(alloc, "Failed to reflink cache contents from ", from, to)
        }
        Last::HardLink(from, to) => between(alloc, "Failed to link cache contents from ", from, to),
    }
}

/// The file at the path, a content or a link's target, wasn't opened.
pub fn opening(alloc: Global, path: &Text) -> Result<Text, AllocError> {
    at(alloc, "Failed to open reader to ", path)
}

/// A piece of a link's target wasn't read.
pub fn reading_target(alloc: Global) -> Result<Text, AllocError> {
    Text::from_str(
        alloc,
        "Failed to read target file contents while calculating integrity",
    )
}

pub(crate) fn hashing(alloc: Global, hashing: &Hashing) -> Result<Text, AllocError> {
    match hashing {
        Hashing::Verify(_, from, _) => {
            let words = "Failed to read cache contents while verifying integrity for ";
            at(alloc, words, from)
        }
        Hashing::Link(_, _) => reading_target(alloc),
    }
}

pub(crate) fn copying(alloc: Global, from: &Text, to: &Text) -> Result<Text, AllocError> {
    between(alloc, "Failed to copy cache contents from ", from, to)
}

/// The size of a link's target wasn't found.
pub fn sizing(alloc: Global, path: &Text) -> Result<Text, AllocError> {
    at(alloc, "Failed to get metadata of ", path)
}

pub(crate) fn making_links(alloc: Global, commit: &Commit) -> Result<Text, AllocError> {
    let place = content_place(alloc, commit.cache.as_str(), &commit.computed)?;
    let words = "Failed to create destination directory for linked cache file, at ";
    at(alloc, words, &place.folder)
}
