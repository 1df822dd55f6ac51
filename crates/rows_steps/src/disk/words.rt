//! Words as texts and bytes.
use cacache_core::bytes::Bytes;
use cacache_core::text::Text;
use rows::words::string_of;
use std::alloc::{AllocError, Global};

/// The text of a word.
pub(crate) fn text_of(alloc: Global, word: &str) -> Result<Text, AllocError> {
    Ok(Text::new(string_of(alloc, word)?))
}

/// The bytes of a word.
pub(crate) fn bytes_of(alloc: Global, word: &str) -> Result<Bytes, AllocError> {
    Bytes::new(alloc, string_of(alloc, word)?.into_bytes())
}
