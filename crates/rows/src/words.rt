//! Words of rows: `-` stands for nothing, `\n` for a line feed, `\t` for a tab, and `\0` for a NUL.
use crate::flaw::Flaw;
use cacache_core::keeping::beside;
use std::alloc::{AllocError, Global};

/// The first column of a row, and the columns after it.
pub fn column(row: &str) -> Result<(&str, &str), Flaw> {
    match row.split_once(" | ") {
        Some(columns) => Ok(columns),
        None => Err(Flaw::NotRead),
    }
}

/// The first word of a text, and what follows it.
pub fn cut(text: &str) -> (&str, &str) {
    text.split_once(' ').unwrap_or((text, ""))
}

/// Puts a word after the others.
fn push(words: &mut Vec<String>, word: Result<String, AllocError>) -> Result<(), AllocError> {
    words.push(word?)?;
    Ok(())
}

/// The words of a text.
pub fn words_of(alloc: Global, text: &str) -> Result<Vec<String>, AllocError> {
    let mut words = Vec::new(alloc);
    for word in text.split(' ') {
        push(&mut words, String::from_str(alloc, word))?;
    }
    Ok(words)
}

/// Whether a word stands for nothing.
pub fn is_nothing(word: &str) -> bool {
    word == "-" || word.is_empty()
}

/// The number that a word spells.
pub fn number_of(word: &str) -> Result<usize, Flaw> {
    match word.parse::<usize>() {
        Ok(number) => Ok(number),
        Err(_) => Err(Flaw::NotRead),
    }
}

/// The text that a word stands for.
pub fn string_of(alloc: Global, word: &str) -> Result<String, AllocError> {
    if is_nothing(word) {
        return Ok(String::new(alloc));
    }
    let text = word.replace(alloc, "\\n", "\n")?;
    let text = text.replace(alloc, "\\t", "\t")?;
    text.replace(alloc, "\\0", "\0")
}

/// Appends the byte whose two hex digits begin this part of a word, and then the rest of the part.
fn push_part(bytes: &mut Vec<u8>, part: &str) -> Result<(), Flaw> {
    let Some((digits, rest)) = part.split_at_checked(2) else {
        return Err(Flaw::NotRead);
    };
    let Ok(byte) = u8::from_str_radix(digits, 16) else {
        return Err(Flaw::NotRead);
    };
    bytes.extend_from_slice(&[byte])?;
    Ok(bytes.extend_from_slice(rest.as_bytes())?)
}

/// The bytes of a word, in which `\xNN` is the byte with these two hex digits.
pub fn bytes_of(alloc: Global, word: &str) -> Result<Vec<u8>, Flaw> {
    let word = if is_nothing(word) { "" } else { word };
    let mut parts = word.split("\\x");
    let mut bytes = Vec::from_slice(alloc, parts.next().unwrap_or("").as_bytes())?;
    for part in parts {
        push_part(&mut bytes, part)?;
    }
    Ok(bytes)
}

/// Bytes as a word, without escaping line feeds, tabs and NULs; `?` if the bytes aren't UTF-8.
pub fn word_of(bytes: &[u8]) -> &str {
    if bytes.is_empty() {
        return "-";
    }
    str::from_utf8(bytes).unwrap_or("?")
}

/// A text with its line feeds, tabs and NULs escaped.
pub fn written_out(alloc: Global, text: &str) -> Result<String, AllocError> {
    let text = text.replace(alloc, "\n", "\\n")?;
    let text = text.replace(alloc, "\t", "\\t")?;
    text.replace(alloc, "\0", "\\0")
}

/// The status, the output and the errors of a run of a program.
pub fn printed(
    alloc: Global,
    status: u8,
    output: &[u8],
    errors: &[u8],
) -> Result<String, AllocError> {
    let output = written_out(alloc, word_of(output))?;
    let (errors, output) = beside(written_out(alloc, word_of(errors)), output)?;
    format!(in alloc; "{status} | {output} | {errors}")
}
