//! Answers as rows say them.
use cacache_core::errors::Result as Answered;
use cacache_core::keeping::beside;
use cacache_entry::Metadata;
use rows::answers::refused;
use rows::words::{is_nothing, word_of, written_out};
use std::alloc::{AllocError, Global};
use std::fmt::Display;

/// Puts an answer after those before it.
pub(crate) fn add(line: &mut String, answer: &str) -> Result<(), AllocError> {
    if !line.is_empty() {
        line.push_str("; ")?;
    }
    line.push_str(answer)
}

/// A line with an answer after it.
pub(crate) fn with(line: String, answer: Result<String, AllocError>) -> Result<String, AllocError> {
    let (answer, mut line) = beside(answer, line)?;
    let (_, line) = beside(add(&mut line, answer.as_str()), line)?;
    Ok(line)
}

/// The bytes of a word.
pub(crate) fn bytes_of(word: &str) -> &[u8] {
    let text = if is_nothing(word) { "" } else { word };
    text.as_bytes()
}

/// The answer on a count of bytes.
pub(crate) fn counted<N: Display + Drop>(
    alloc: Global,
    answer: Answered<N>,
) -> Result<String, AllocError> {
    match answer {
        Ok(count) => format!(in alloc; "Ok({count})"),
        Err(error) => refused(alloc, error),
    }
}

/// The answer on what says nothing.
pub(crate) fn done(alloc: Global, answer: Answered<()>) -> Result<String, AllocError> {
    match answer {
        Ok(()) => String::from_str(alloc, "Ok"),
        Err(error) => refused(alloc, error),
    }
}

/// The answer on bytes that were read.
pub(crate) fn read(alloc: Global, answer: Answered<Vec<u8>>) -> Result<String, AllocError> {
    match answer {
        Ok(bytes) => written_out(alloc, word_of(&bytes)),
        Err(error) => refused(alloc, error),
    }
}

/// The answer on an entry that was looked up: its integrity, time, size, metadata and raw metadata.
pub(crate) fn found(
    alloc: Global,
    answer: Answered<Option<Metadata>>,
) -> Result<String, AllocError> {
    match answer {
        Ok(Some(entry)) => shown_entry(alloc, &entry),
        Ok(None) => String::from_str(alloc, "nothing"),
        Err(error) => refused(alloc, error),
    }
}

/// What an entry says.
fn shown_entry(alloc: Global, entry: &Metadata) -> Result<String, AllocError> {
    let metadata = entry.metadata.to_string(alloc)?;
    let raw = &entry.raw_metadata;
    let integrity = &entry.integrity;
    let (time, size) = (entry.time, entry.size);
    format!(in alloc; "{integrity} {time} {size} {metadata} {raw:?}")
}
