//! The entries that bytes hold.
use crate::values::words::{column, printed, two};
use cacache_entry::{SerializableMetadata, entries};
use rows::Flaw;
use rows::answers::given;
use rows::words::bytes_of;
use sha2::{Digest, Sha256};
use std::alloc::{AllocError, Global};
use std::hash::{DefaultHasher, Hash, Hasher};

/// How many entries bytes hold, and the time of the last.
fn held(alloc: Global, bytes: &[u8]) -> Result<String, Flaw> {
    let found = given(entries(alloc, bytes))?;
    match found.last() {
        Some(entry) => two(alloc, found.len(), entry.time),
        None => printed(alloc, "none"),
    }
}

/// How many entries the bytes of a word hold, and the time of the last.
pub(crate) fn found(alloc: Global, word: &str) -> Result<String, Flaw> {
    let bytes = bytes_of(alloc, word)?;
    held(alloc, &bytes)
}

/// What two runs of bytes hold, the second right after the first.
fn held_by_both(alloc: Global, front: &[u8], back: &[u8]) -> Result<String, Flaw> {
    let mut bytes = Vec::from_slice(alloc, front)?;
    bytes.extend_from_slice(back)?;
    held(alloc, &bytes)
}

/// At how many cuts the bytes before the cut, followed by these bytes, hold what a word says.
pub(crate) fn torn(alloc: Global, columns: &str) -> Result<String, Flaw> {
    let (whole, rest) = column(columns);
    let (back, wanted) = column(rest);
    let whole = bytes_of(alloc, whole)?;
    let back = bytes_of(alloc, back)?;
    let mut count = 0u64;
    for cut in 0..whole.len() {
        if held_by_both(alloc, &whole[..cut], &back)?.as_str() == wanted {
            count = count.saturating_add(1);
        }
    }
    printed(alloc, count)
}

/// The line of a text, with the text's own digest.
fn line_of(alloc: Global, text: &[u8]) -> Result<Vec<u8>, AllocError> {
    let digest = hex::encode(alloc, Sha256::digest(text))?;
    let mut line = Vec::from_slice(alloc, b"\n")?;
    line.extend_from_slice(digest.as_bytes())?;
    line.push(b'\t')?;
    line.extend_from_slice(text)?;
    Ok(line)
}

/// What the line of a text holds.
fn held_by_line(alloc: Global, text: &[u8]) -> Result<String, Flaw> {
    let line = line_of(alloc, text)?;
    held(alloc, &line)
}

/// How many entries the line of a text holds, and the time of the last.
pub(crate) fn text(alloc: Global, word: &str) -> Result<String, Flaw> {
    held_by_line(alloc, word.as_bytes())
}

/// At how many cuts the line of the text before the cut holds what a word says.
pub(crate) fn torn_text(alloc: Global, columns: &str) -> Result<String, Flaw> {
    let (whole, wanted) = column(columns);
    let whole = whole.as_bytes();
    let mut count = 0u64;
    for cut in 0..whole.len() {
        if held_by_line(alloc, &whole[..cut])?.as_str() == wanted {
            count = count.saturating_add(1);
        }
    }
    printed(alloc, count)
}

/// The hash of an entry.
fn hash_of(entry: &SerializableMetadata) -> u64 {
    let mut state = DefaultHasher::new();
    entry.hash(&mut state);
    state.finish()
}

/// Whether two entries are equal, and whether they are equal with the same hash.
fn are_alike(alloc: Global, found: &[SerializableMetadata]) -> Result<String, Flaw> {
    match found {
        [one, other] => {
            let are_equal = *one == *other;
            two(
                alloc,
                are_equal,
                are_equal && hash_of(one) == hash_of(other),
            )
        }
        _ => Err(Flaw::NotRead),
    }
}

/// Whether the two entries in a word's bytes are equal, and whether they are equal with the same hash.
pub(crate) fn alike(alloc: Global, word: &str) -> Result<String, Flaw> {
    let found = given(entries(alloc, word.as_bytes()))?;
    are_alike(alloc, &found)
}
