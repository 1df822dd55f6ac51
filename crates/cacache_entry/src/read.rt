//! The entries of a bucket.
ghost use Rattle.std.specs.{Prelude.{◌≡◌, [], ◌∷◌, ◌++◌, IfOk, IfErr, MatchOption, OnOk, map, option_map, IsTrue, ◌↔◌}, Option.{option_to_list}};
ghost use Rattle.cacache_core.specs.{Integrity.{sha256_hex}, declared.errors.Error.TheVariants.{OutOfMemory}};
ghost use Rattle.cacache_entry.specs.{Bucket.{cut, CutsAt, without_cr as less_cr, entry_of_piece, entries_of}, View.{entry_view}};

use crate::metadata::SerializableMetadata;
use crate::parse::read_entry;
use crate::written::written_entry;
use cacache_core::errors;
use memchr::memchr;
use sha2::{Digest, Sha256};
use std::alloc::{AllocError, Global};

/// The entries in the bytes of a bucket, in order. A piece that isn't an entry is skipped, and only that piece.
///
/// # Errors
///
/// `OutOfMemory` if memory runs out.
pub fn entries(alloc: Global, bytes: &[u8]) -> errors::Result<Vec<SerializableMetadata>>
    ensures entries { IfOk result (λ found. map entry_view found.items ≡ entries_of bytes.now) }
    ensures refused { IfErr result (λ e. e ≡ OutOfMemory) }
{
    let mut found = Vec::new(alloc);
    let mut rest = bytes;
    while let Some(at) = first(rest, b'\n') {
        add(&mut found, alloc, &rest[..at])?;
        rest = &rest[at + 1..];
    }
    add(&mut found, alloc, rest)?;
    Ok(found)
}

/// Adds the entry in a piece, if the piece is one.
fn add(found: &mut Vec<SerializableMetadata>, alloc: Global, piece: &[u8]) -> Result<(), AllocError>
    ensures { OnOk result (map entry_view found.new.items
        ≡ map entry_view found.old.items ++ option_to_list (entry_of_piece (less_cr piece.now))) }
{
    if let Some(entry) = piece_entry(alloc, without_cr(piece))? {
        found.push(entry)?;
    }
    Ok(())
}

/// The bytes without one trailing CR.
pub(crate) fn without_cr(piece: &[u8]) -> &[u8]
    ensures { result.now ≡ less_cr piece.now }
{
    match piece.split_last() {
        Some((last, front)) => if *last == b'\r' { front } else { piece },
        None => piece,
    }
}

/// The index of the first occurrence of the byte.
fn first(bytes: &[u8], byte: u8) -> Option<usize>
    ensures { MatchOption result (cut byte bytes.now ≡ bytes.now ∷ [])
        (λ i. CutsAt byte bytes.now i) }
{
    memchr(byte, bytes)
}

/// The entry in a piece, if it is one. Most pieces are spelled as `line` writes them; the others are read as JSON.
pub(crate) fn piece_entry(
    alloc: Global,
    piece: &[u8],
) -> Result<Option<SerializableMetadata>, AllocError>
    ensures { IfOk result (λ o. option_map entry_view o ≡ entry_of_piece piece.now) }
{
    if let Some(entry) = written_entry(alloc, piece)? {
        return Ok(Some(entry));
    }
    read_piece(alloc, piece)
}

/// The entry in a piece, however the piece is spelled.
fn read_piece(alloc: Global, piece: &[u8]) -> Result<Option<SerializableMetadata>, AllocError>
    ensures { IfOk result (λ o. option_map entry_view o ≡ entry_of_piece piece.now) }
{
    let Ok(text) = std::str::from_utf8(piece) else {
        return Ok(None);
    };
    let Some(tab) = first(piece, b'\t') else {
        return Ok(None);
    };
    let rest = &text[tab + 1..];
    if first(rest.as_bytes(), b'\t').is_some() {
        return Ok(None);
    }
    if !is_digest_of(&piece[..tab], rest.as_bytes()) {
        return Ok(None);
    }
    read_entry(alloc, rest)
}

/// Whether the digits are the SHA-256 of the bytes in lower-case hex.
pub(crate) fn is_digest_of(digits: &[u8], bytes: &[u8]) -> bool
    ensures { IsTrue result ↔ (digits.now ≡ sha256_hex bytes.now) }
{
    let mut hex_digits = [0; 64];
    match hex::encode_to_slice(Sha256::digest(bytes), &mut hex_digits) {
        Ok(()) => digits == hex_digits.as_slice(),
        Err(_) => unreachable!(),
    }
}
