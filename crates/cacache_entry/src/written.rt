//! Reads the entry of a piece that `line` wrote, without parsing it as JSON.
ghost use Rattle.std.specs.Prelude.{◌≡◌, IfOk, IfSome, Some, option_map};
ghost use Rattle.cacache_entry.specs.{Bucket.{entry_of_piece}, EntryLaws.{bare_entry}, View.{entry_view}};

use crate::metadata::SerializableMetadata;
use crate::parts::{Parts, written_parts};
use serde_json::Value;
use std::alloc::{AllocError, Global};

/// The entry with these parts.
fn entry_of(alloc: Global, parts: Parts<'_>) -> Result<SerializableMetadata, AllocError>
    ensures { IfOk result (λ e. entry_view e ≡ bare_entry
        parts.entry.key.now (option_map (λ t. t.now) parts.entry.integrity)
        parts.entry.time parts.entry.size) }
{
    let key = String::from_str(alloc, parts.key)?;
    let integrity = match parts.integrity {
        Some(text) => Some(String::from_str(alloc, text)?),
        None => None,
    };
    Ok(SerializableMetadata {
        key,
        integrity,
        time: u128::from(parts.time),
        size: parts.size as usize,
        metadata: Value::Null,
        raw_metadata: None,
    })
}

/// The entry in a piece, if the entry has no metadata and the piece is spelled as `line` writes it. `None` says nothing
/// about the piece.
pub(crate) fn written_entry(
    alloc: Global,
    piece: &[u8],
) -> Result<Option<SerializableMetadata>, AllocError>
    ensures { IfOk result (λ o.
        IfSome o (λ entry. entry_of_piece piece.now ≡ Some (entry_view entry))) }
{
    let Some(parts) = written_parts(piece) else {
        return Ok(None);
    };
    Ok(Some(entry_of(alloc, parts)?))
}
