//! Parses integrity texts.
ghost use Rattle.std.specs.Prelude.{◌≡◌, ◌<◌, ◌≤◌, ◌∷◌, [], ℕ, not, MatchOption, Ok, Err, IfOk, IfErr, IfSome, All, length, slice_index};
ghost use Rattle.base64.specs.{Engines.{standard}, GeneralPurpose.{decode_of}};
ghost use Rattle.cacache_core.specs.{Integrity.{IsHash, strongest_first}, Errors.{IsReadFailure}, Texts.{is_blank as is_blank_of, words as words_of, read_word, read_words, decoded_hash}};

use crate::errors::{Error, IntegrityFault, Result};
use crate::integrity::algorithm::Algorithm;
use crate::integrity::digest::{Digest, Hash};
use base64::DecodeAllocError;
use base64::engine::general_purpose::STANDARD;
use std::alloc::{AllocError, Global};

/// The hashes of a text in written order, or the fault of its first word that isn't a hash.
pub(super) fn read_hashes(alloc: Global, text: &[u8]) -> Result<Vec<Hash>>
    ensures ok { IfOk result (λ v. read_words (words_of text.now) ≡ Ok v.items) }
    ensures hashes { IfOk result (λ v. All IsHash v.items) }
    ensures err { IfErr result (IsReadFailure (read_words (words_of text.now))) }
{
    let mut hashes = Vec::new(alloc);
    let mut rest = text;
    while let Some((word, others)) = next_word(rest) {
        hashes.push(read_hash(alloc, word)?)?;
        rest = others;
    }
    Ok(hashes)
}

/// These hashes, strongest algorithm first. Those of one algorithm keep their order. A single
/// hash is returned unchanged.
#[tactic(auto, using(crate::proofs::Order::one_in_order))]
pub(super) fn in_order(
    alloc: Global,
    hashes: Vec<Hash>,
) -> std::result::Result<Vec<Hash>, AllocError>
    ensures { IfOk result (λ v. v.items ≡ strongest_first hashes.items) }
{
    if hashes.len() < 2 {
        return Ok(hashes);
    }
    let mut sha512 = Vec::new(alloc);
    let mut sha384 = Vec::new(alloc);
    let mut sha256 = Vec::new(alloc);
    let mut sha1 = Vec::new(alloc);
    for hash in hashes {
        match hash.algorithm {
            Algorithm::Sha512 => sha512.push(hash)?,
            Algorithm::Sha384 => sha384.push(hash)?,
            Algorithm::Sha256 => sha256.push(hash)?,
            Algorithm::Sha1 => sha1.push(hash)?,
        }
    }
    sha512.append(&mut sha384)?;
    sha512.append(&mut sha256)?;
    sha512.append(&mut sha1)?;
    Ok(sha512)
}

/// The hash of a word, or why the word isn't a hash.
fn read_hash(alloc: Global, word: &[u8]) -> Result<Hash>
    ensures ok { IfOk result (λ h. read_word word.now ≡ Ok h) }
    ensures hash { IfOk result IsHash }
    ensures err { IfErr result (IsReadFailure (read_word word.now)) }
{
    let Some((algorithm, rest)) = split_name(word) else {
        return Err(Error::IntegrityError(IntegrityFault::BadText));
    };
    match STANDARD.decode(alloc, rest) {
        Ok(bytes) => {
            if bytes.len() < 3 {
                return Err(Error::IntegrityError(IntegrityFault::ShortDigest));
            }
            let digest = Digest::new(bytes);
            Ok(Hash { algorithm, digest })
        }
        Err(DecodeAllocError::OutOfMemory) => Err(Error::OutOfMemory),
        Err(DecodeAllocError::DecodeError(_)) => {
            Err(Error::IntegrityError(IntegrityFault::BadText))
        }
    }
}

/// The algorithm that a word begins with, and what follows its name and the dash.
fn split_name(word: &[u8]) -> Option<(Algorithm, &[u8])>
    ensures { MatchOption result (read_word word.now ≡ Err IntegrityFault.BadText)
        (λ p. read_word word.now ≡ decoded_hash p.0 (decode_of standard p.1.now)) }
{
    if word.starts_with(b"sha1-") {
        return Some((Algorithm::Sha1, &word[5..]));
    }
    if word.starts_with(b"sha256-") {
        return Some((Algorithm::Sha256, &word[7..]));
    }
    if word.starts_with(b"sha384-") {
        return Some((Algorithm::Sha384, &word[7..]));
    }
    if word.starts_with(b"sha512-") {
        return Some((Algorithm::Sha512, &word[7..]));
    }
    None
}

/// The first word of a text, and what follows it.
fn next_word(text: &[u8]) -> Option<(&[u8], &[u8])>
    ensures words { MatchOption result (words_of text.now ≡ [])
        (λ p. words_of text.now ≡ p.0.now ∷ words_of p.1.now) }
    ensures shorter { IfSome result (λ p. length p.1.now < length text.now) }
{
    let start = first_place(text, false);
    let text = &text[start..];
    if text.is_empty() {
        return None;
    }
    let end = first_place(text, true);
    Some((&text[..end], &text[end..]))
}

/// The index of the first blank byte if `blank` is true, and otherwise of the first other byte. The
/// length of the text if there is no such byte.
fn first_place(text: &[u8], blank: bool) -> usize
    ensures within { result ≤ length text.now }
    ensures before { (k : ℕ) → k < result → is_blank_of (slice_index text.now k) ≡ not blank }
    ensures found { result < length text.now → is_blank_of (slice_index text.now result) ≡ blank }
{
    for (i, byte) in text.iter().enumerate() {
        if is_blank(*byte) == blank {
            return i;
        }
    }
    text.len()
}

/// Whether a byte separates words: a space, TAB, LF, FF or CR.
fn is_blank(byte: u8) -> bool
    ensures { result ≡ is_blank_of byte }
{
    byte == b' ' || byte == b'\t' || byte == b'\n' || byte == 12 || byte == b'\r'
}
