//! Entries that were found, as entries again and as texts.
ghost use Rattle.std.specs.Prelude.{◌≡◌, IfErr, IfOk};
ghost use Rattle.cacache_entry.specs.{Entry.{text_of}, View.{entry_view, found_view, IsRefusal}};
ghost use Rattle.cacache_sync.specs.Lookups.{printed_entry};

use cacache_core::errors::Result;
use cacache_entry::{Metadata, SerializableMetadata, line};
use std::alloc::{AllocError, Global};

/// Where the text of an entry begins in its line: after LF, 64 hex digits and TAB.
const TEXT: usize = 66;

/// What a lookup found, as its line says it: the integrity is its text.
pub fn entry_of(
    alloc: Global,
    found: Metadata,
) -> std::result::Result<SerializableMetadata, AllocError>
    ensures { IfOk result (λ entry. entry_view entry ≡ printed_entry (found_view found)) }
{
    let integrity = Some(found.integrity.to_string(alloc)?);
    Ok(SerializableMetadata {
        key: found.key,
        integrity,
        time: found.time,
        size: found.size,
        metadata: found.metadata,
        raw_metadata: found.raw_metadata,
    })
}

/// The JSON text of an entry, as it is in its line.
///
/// ```
/// if let Some(found) = cacache::metadata_sync(&mut env, "my-cache", "key")? {
///     let entry = cacache::index::entry_of(alloc, found)?;
///     lines.push(cacache::index::text(alloc, &entry)?)?; // {"key":"key","integrity":..
/// }
/// ```
///
/// # Errors
///
/// Those of `line`: `SerdeError` for an entry that can't be written, `OutOfMemory` if memory runs out. What a lookup
/// found can be written.
pub fn text(alloc: Global, entry: &SerializableMetadata) -> Result<Vec<u8>>
    ensures text { IfOk result (λ text. text.items ≡ text_of (entry_view entry.now)) }
    ensures refused { IfErr result (IsRefusal (entry_view entry.now)) }
{
    let mut line = line(alloc, entry)?;
    Ok(line.split_off(TEXT)?)
}
