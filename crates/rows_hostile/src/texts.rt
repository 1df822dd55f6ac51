//! Replies in words, as the model says them.
use crate::facts::{CACHE, Content, KEY};
use cacache_core::errors::Fault;
use std::alloc::{AllocError, Global};

/// A failed step, with the message of its call.
pub(crate) fn failed(alloc: Global, fault: Fault, message: &str) -> Result<String, AllocError> {
    format!(in alloc; "failed {fault:?}: {message}")
}

/// A failed step, with the message of its call, which ends with a path.
pub(crate) fn failed_at(
    alloc: Global,
    fault: Fault,
    message: &str,
    path: &str,
) -> Result<String, AllocError> {
    format!(in alloc; "failed {fault:?}: {message} {path}")
}

/// A failed step, with the message of its call, which ends with a path in quotes.
pub(crate) fn failed_in(
    alloc: Global,
    fault: Fault,
    message: &str,
    path: &str,
) -> Result<String, AllocError> {
    format!(in alloc; "failed {fault:?}: {message} \"{path}\"")
}

/// A content is stored.
pub(crate) fn stored(alloc: Global, content: Content) -> Result<String, AllocError> {
    format!(in alloc; "stored {}", content.integrity())
}

/// The entry of a content is found.
pub(crate) fn found(alloc: Global, content: Content) -> Result<String, AllocError> {
    let (integrity, moment) = (content.integrity(), content.moment());
    format!(in alloc; "found {KEY} {integrity} {moment} 3 None")
}

/// The bytes of a content are read.
pub(crate) fn read(alloc: Global, content: Content) -> Result<String, AllocError> {
    format!(in alloc; "read {}", content.text())
}

/// No entry is found, though one was needed.
pub(crate) fn no_entry(alloc: Global) -> Result<String, AllocError> {
    format!(in alloc; "refused: Entry not found for key \"{KEY}\" in cache \"{CACHE}\"")
}
