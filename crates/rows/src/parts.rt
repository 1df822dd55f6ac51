//! Reads values of the cache from words.
use crate::flaw::Flaw;
use crate::words::{is_nothing, number_of};
use cacache_core::integrity::{Algorithm, Integrity};
use cacache_core::keeping::let_go;
use std::alloc::Global;

/// The algorithm with this name.
pub fn algorithm_of(name: &str) -> Result<Algorithm, Flaw> {
    match Algorithm::parse(name) {
        Ok(algorithm) => Ok(algorithm),
        Err(error) => {
            let_go(error);
            Err(Flaw::NotRead)
        }
    }
}

/// The integrity of this text, in which commas separate the hashes.
pub fn integrity_of(alloc: Global, text: &str) -> Result<Integrity, Flaw> {
    let text = text.replace(alloc, ",", " ")?;
    match Integrity::parse(alloc, text.as_str()) {
        Ok(integrity) => Ok(integrity),
        Err(error) => {
            let_go(error);
            Err(Flaw::NotRead)
        }
    }
}

/// The expected integrity that a word states, or None if the word stands for nothing.
pub fn expected_of(alloc: Global, word: &str) -> Result<Option<Integrity>, Flaw> {
    if is_nothing(word) {
        return Ok(None);
    }
    Ok(Some(integrity_of(alloc, word)?))
}

/// The expected size that a word states, or None if the word stands for nothing.
pub fn size_of(word: &str) -> Result<Option<usize>, Flaw> {
    if is_nothing(word) {
        return Ok(None);
    }
    Ok(Some(number_of(word)?))
}
