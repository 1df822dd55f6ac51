//! Bytes and paths that words stand for.
use cacache_core::bytes::Bytes;
use cacache_core::text::Text;
use rows::words::{is_nothing, word_of};
use std::alloc::{AllocError, Global};

/// From how many bytes on only their number is shown.
const LONG: usize = 100;

/// So many bytes that count from a number on, modulo 251, so that no two pieces of 64 KiB are alike.
fn counting(alloc: Global, first: usize, count: usize) -> Result<Vec<u8>, AllocError> {
    let mut bytes = Vec::with_capacity(alloc, count)?;
    for number in first..first.saturating_add(count) {
        bytes.push((number % 251) as u8)?;
    }
    Ok(bytes)
}

/// How many bytes a text stands for, if it is a `*` with their number.
fn count_in(text: &str) -> Option<usize> {
    text.strip_prefix('*')?.parse::<usize>().ok()
}

/// The bytes of a word: none for `-`, so many for `*1000`, which count from 0 on, and otherwise its own.
pub(crate) fn bytes_of(alloc: Global, word: &str) -> Result<Bytes, AllocError> {
    let bytes = match count_in(word) {
        Some(count) => counting(alloc, 0, count)?,
        None if is_nothing(word) => Vec::new(alloc),
        None => Vec::from_slice(alloc, word.as_bytes())?,
    };
    Bytes::new(alloc, bytes)
}

/// Bytes as they are shown: short ones as a word, and long ones that count by their number, and by the first if that isn't 0.
pub(crate) fn text_of(alloc: Global, bytes: &[u8]) -> Result<String, AllocError> {
    let Some(&first) = bytes.first() else {
        return String::from_str(alloc, "-");
    };
    let count = bytes.len();
    if count < LONG {
        return String::from_str(alloc, word_of(bytes));
    }
    let wanted = counting(alloc, usize::from(first), count)?;
    if wanted.as_slice() != bytes {
        return String::from_str(alloc, "other bytes");
    }
    if first == 0 {
        format!(in alloc; "*{count}")
    } else {
        format!(in alloc; "*{count} from {first}")
    }
}

/// The path of a word: the one after a `=`, and otherwise one below the folder.
pub(crate) fn path_of(alloc: Global, root: &str, word: &str) -> Result<Text, AllocError> {
    match word.strip_prefix('=') {
        Some(path) => Text::from_str(alloc, path),
        None => Ok(Text::new(format!(in alloc; "{root}{word}")?)),
    }
}
