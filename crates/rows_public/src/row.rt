//! The columns of a row, the program's words, and bytes as words.
use rows::Flaw;
use rows::words::{self, column, string_of, word_of, written_out};
use std::alloc::{AllocError, Global};

/// The three columns of a row.
#[derive(Clone, Copy)]
pub(crate) struct Row<'a> {
    pub(crate) act: &'a str,
    /// What the program is given to read, or what a file is to hold.
    pub(crate) input: &'a str,
    /// The status, the output and the errors; or what a file holds.
    pub(crate) wanted: &'a str,
}

/// The columns of a line.
pub(crate) fn row_of(line: &str) -> Result<Row<'_>, Flaw> {
    let (act, rest) = column(line)?;
    let (input, wanted) = column(rest)?;
    Ok(Row { act, input, wanted })
}

/// The words of a text, without those that stand for nothing.
pub(crate) fn words_of(alloc: Global, text: &str) -> Result<Vec<String>, AllocError> {
    let mut words = words::words_of(alloc, text)?;
    words.retain(|word| word.as_str() != "-");
    Ok(words)
}

/// The bytes of a word.
pub(crate) fn bytes_of(alloc: Global, word: &str) -> Result<Vec<u8>, AllocError> {
    Ok(string_of(alloc, word)?.into_bytes())
}

/// Bytes as a word.
pub(crate) fn shown(alloc: Global, bytes: &[u8]) -> Result<String, AllocError> {
    written_out(alloc, word_of(bytes))
}
