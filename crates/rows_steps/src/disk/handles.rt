//! Open and temporary files as words: `3=abc` is an open file with three bytes left, `t=ab` a temporary file at `t`.
//! `?` stands for bytes that aren't known, and `held` for the handle of the last answer that had one.
use crate::disk::shown::{shown_file, shown_temp};
use crate::disk::words::{bytes_of, text_of};
use cacache_core::bytes::Bytes;
use cacache_core::keeping::let_go;
use cacache_store::store::{Answer, PlainAnswer, PlainFile, PlainTemp};
use rows::Flaw;
use rows::words::{number_of, word_of};
use std::alloc::{AllocError, Global};
use std::io::{Read, Write};

/// An open file or a temporary file.
#[derive(Drop)]
pub(crate) enum Handle {
    File(PlainFile),
    Temp(PlainTemp),
}

/// The handle in an answer.
pub(crate) fn handle_in(answer: PlainAnswer) -> Option<Handle> {
    match answer {
        Answer::File(file) => Some(Handle::File(file)),
        Answer::Got(file, bytes) => {
            let_go(bytes);
            Some(Handle::File(file))
        }
        Answer::Temp(temp) => Some(Handle::Temp(temp)),
        Answer::Wrote(temp, _) => Some(Handle::Temp(temp)),
        Answer::Synced(temp) => Some(Handle::Temp(temp)),
        other => {
            let_go(other);
            None
        }
    }
}

/// The bytes of a word, if they are known.
fn known_of(alloc: Global, word: &str) -> Result<Option<Bytes>, AllocError> {
    if word == "?" {
        return Ok(None);
    }
    Ok(Some(bytes_of(alloc, word)?))
}

/// The open file of a word.
fn new_file(alloc: Global, word: &str) -> Result<PlainFile, Flaw> {
    let Some((left, bytes)) = word.split_once('=') else {
        return Err(Flaw::NotRead);
    };
    let left = number_of(left)?;
    let bytes = known_of(alloc, bytes)?;
    Ok(PlainFile { left, bytes })
}

/// The temporary file of a word.
fn new_temp(alloc: Global, word: &str) -> Result<PlainTemp, Flaw> {
    let Some((path, bytes)) = word.split_once('=') else {
        return Err(Flaw::NotRead);
    };
    let path = text_of(alloc, path)?;
    let bytes = known_of(alloc, bytes)?;
    Ok(PlainTemp { path, bytes })
}

/// The open file of a word, or the one that is held.
pub(crate) fn file_of(
    alloc: Global,
    held: &mut Option<Handle>,
    word: &str,
) -> Result<PlainFile, Flaw> {
    if word != "held" {
        return new_file(alloc, word);
    }
    match held.take() {
        Some(Handle::File(file)) => Ok(file),
        _ => Err(Flaw::NotRead),
    }
}

/// The temporary file of a word, or the one that is held.
pub(crate) fn temp_of(
    alloc: Global,
    held: &mut Option<Handle>,
    word: &str,
) -> Result<PlainTemp, Flaw> {
    if word != "held" {
        return new_temp(alloc, word);
    }
    match held.take() {
        Some(Handle::Temp(temp)) => Ok(temp),
        _ => Err(Flaw::NotRead),
    }
}

/// Writes the bytes through the temporary file itself, with no step, and gives what it has then.
fn written(alloc: Global, temp: &mut PlainTemp, bytes: &[u8]) -> Result<String, AllocError> {
    if temp.write_all(bytes).is_err() {
        return Err(AllocError);
    }
    shown_temp(alloc, temp)
}

/// Reads so many bytes, but eight at most, through the open file itself, with no step, and gives what is left and what was
/// read.
fn drained(alloc: Global, file: &mut PlainFile, size: usize) -> Result<String, AllocError> {
    let mut buf = [0u8; 8];
    let size = size.min(buf.len());
    let count = file.read(&mut buf[..size]).unwrap_or(0);
    let left = shown_file(alloc, file)?;
    format!(in alloc; "Got {left} {}", word_of(&buf[..count]))
}

/// Reads or writes through the held handle itself, with no step.
pub(crate) fn used(alloc: Global, held: &mut Option<Handle>, word: &str) -> Result<String, Flaw> {
    match held {
        Some(Handle::File(file)) => Ok(drained(alloc, file, number_of(word)?)?),
        Some(Handle::Temp(temp)) => Ok(written(alloc, temp, word.as_bytes())?),
        None => Err(Flaw::NotRead),
    }
}
