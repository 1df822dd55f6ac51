//! The lookup of a key, which starts at the end of a bucket.
ghost use Rattle.std.specs.Prelude.{◌≡◌, ◌<◌, ◌+◌, ◌^◌, IfOk, IfErr, option_map, option_and_then, string_bytes};
ghost use Rattle.cacache_core.specs.declared.errors.Error.TheVariants.{OutOfMemory};
ghost use Rattle.cacache_entry.specs.{Bucket.{without_cr as less_cr, entry_of_piece, entries_of, found_of, answer_of_integrity, answer_of, answer_to, latest as latest_of, pieces_read}, View.{entry_view, found_view}};

use crate::metadata::{Metadata, SerializableMetadata};
use crate::read::{piece_entry, without_cr};
use cacache_core::errors::{self, Error};
use cacache_core::integrity::Integrity;
use memchr::memrchr;
use std::alloc::{AllocError, Global};

/// What a lookup found, and how much of the bucket it read.
#[derive(Debug, Drop, PartialEq)]
pub struct Lookup {
    /// The entry, or `None` if the key was deleted or never written.
    pub found: Option<Metadata>,
    /// How many pieces were decoded: from the deciding one to the last, or all if none decides.
    pub pieces: u64,
}

/// Looks the key up in the bytes of a bucket, from the end. The last entry of the key that is a tombstone or has a
/// readable integrity decides, and no piece before it is read. Nothing is found if that entry is a tombstone, or if no
/// entry decides.
///
/// # Errors
///
/// `OutOfMemory` if memory runs out.
pub fn latest(alloc: Global, bytes: &[u8], key: &str) -> errors::Result<Lookup>
    ensures found { IfOk result (λ lookup.
        option_map found_view lookup.found ≡ latest_of key.now (entries_of bytes.now)) }
    ensures pieces { IfOk result (λ lookup. lookup.pieces ≡ pieces_read key.now bytes.now) }
    ensures refused { IfErr result (λ e. e ≡ OutOfMemory) }
{
    let mut pieces = 0;
    let mut rest = bytes;
    while let Some(at) = memrchr(b'\n', rest) {
        if let Some(found) = piece_answer(alloc, &rest[at + 1..], key, &mut pieces)? {
            return Ok(Lookup { found, pieces });
        }
        rest = &rest[..at];
    }
    let found = piece_answer(alloc, rest, key, &mut pieces)?.flatten();
    Ok(Lookup { found, pieces })
}

/// What a piece answers to a lookup of the key: an entry or, if it is a tombstone, that there is none. `None` if the
/// piece isn't an entry of the key, or if its integrity is unreadable. Each call raises `pieces` by one.
fn piece_answer(
    alloc: Global,
    piece: &[u8],
    key: &str,
    pieces: &mut u64,
) -> Result<Option<Option<Metadata>>, AllocError>
    requires { pieces.old + 1 < 2 ^ 64 }
    ensures answer { IfOk result (λ answer. option_map (option_map found_view) answer
        ≡ option_and_then (answer_to key.now) (entry_of_piece (less_cr piece.now))) }
    ensures pieces { pieces.new ≡ pieces.old + 1 }
{
    *pieces += 1;
    match piece_entry(alloc, without_cr(piece))? {
        Some(entry) => if entry.key.as_str() == key {
            entry_answer(alloc, entry)
        } else {
            Ok(None)
        },
        None => Ok(None),
    }
}

/// What an entry of the key answers.
fn entry_answer(
    alloc: Global,
    entry: SerializableMetadata,
) -> Result<Option<Option<Metadata>>, AllocError>
    ensures { IfOk result (λ answer. option_map (option_map found_view) answer
        ≡ answer_of (entry_view entry) (entry_view entry).integrity) }
{
    match integrity_answer(alloc, &entry.integrity)? {
        Some(Some(integrity)) => Ok(Some(Some(with_integrity(entry, integrity)))),
        Some(None) => Ok(Some(None)),
        None => Ok(None),
    }
}

/// What an entry that was already read answers to a lookup of its own key: a copy of what it says or, if it is a
/// tombstone, that there is none. `None` if its integrity is unreadable.
pub fn answer_of_entry(
    alloc: Global,
    entry: &SerializableMetadata,
) -> Result<Option<Option<Metadata>>, AllocError>
    ensures { IfOk result (λ answer. option_map (option_map found_view) answer
        ≡ answer_of (entry_view entry.now) (entry_view entry.now).integrity) }
{
    match integrity_answer(alloc, &entry.integrity)? {
        Some(Some(integrity)) => Ok(Some(Some(copied(entry, integrity)?))),
        Some(None) => Ok(Some(None)),
        None => Ok(None),
    }
}

/// A copy of the entry, with its integrity.
fn copied(entry: &SerializableMetadata, integrity: Integrity) -> Result<Metadata, AllocError>
    ensures { IfOk result (λ found. found_view found ≡ found_of (entry_view entry.now) integrity) }
{
    Ok(Metadata {
        key: entry.key.clone()?,
        integrity,
        time: entry.time,
        size: entry.size,
        metadata: entry.metadata.clone()?,
        raw_metadata: entry.raw_metadata.clone()?,
    })
}

/// What an entry's integrity answers: the integrity that its text is read as or, for a tombstone, that there is none.
/// `None` if it is unreadable.
fn integrity_answer(
    alloc: Global,
    text: &Option<String>,
) -> Result<Option<Option<Integrity>>, AllocError>
    ensures { IfOk result (λ answer. answer
        ≡ answer_of_integrity (option_map string_bytes text.now)) }
{
    match text {
        Some(text) => match Integrity::parse(alloc, text.as_str()) {
            Ok(integrity) => Ok(Some(Some(integrity))),
            Err(Error::IntegrityError(_)) => Ok(None),
            Err(_) => Err(AllocError),
        },
        None => Ok(Some(None)),
    }
}

/// The entry with its integrity.
fn with_integrity(entry: SerializableMetadata, integrity: Integrity) -> Metadata
    ensures { found_view result ≡ found_of (entry_view entry) integrity }
{
    let SerializableMetadata {
        key,
        integrity: _text,
        time,
        size,
        metadata,
        raw_metadata,
    } = entry;
    Metadata {
        key,
        integrity,
        time,
        size,
        metadata,
        raw_metadata,
    }
}
