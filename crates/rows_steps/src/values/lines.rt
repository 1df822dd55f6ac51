//! The lines of entries.
use crate::values::words::{Debugged, column, plain, printed, text_of, three};
use cacache_core::keeping::let_go;
use cacache_entry::{Metadata, SerializableMetadata, entries, latest};
use rows::Flaw;
use rows::answers::given;
use rows::words::{bytes_of, number_of, word_of};
use serde_json::Value;
use std::alloc::{AllocError, Global};

/// The offset in bytes of an entry's text in its line: after LF, 64 hex digits and TAB.
const TEXT: usize = 66;

/// The columns of an entry.
#[derive(Clone, Copy)]
struct Columns<'a> {
    key: &'a str,
    integrity: &'a str,
    time: &'a str,
    size: &'a str,
    metadata: &'a str,
    raw_metadata: &'a str,
}

/// The columns of a row's entry.
fn columns_of(columns: &str) -> Columns<'_> {
    let (key, rest) = column(columns);
    let (integrity, rest) = column(rest);
    let (time, rest) = column(rest);
    let (size, rest) = column(rest);
    let (metadata, raw_metadata) = column(rest);
    Columns {
        key,
        integrity,
        time,
        size,
        metadata,
        raw_metadata,
    }
}

/// The text of a column, unless it is `none`.
fn integrity_of(alloc: Global, word: &str) -> Result<Option<String>, Flaw> {
    match word {
        "none" => Ok(None),
        _ => Ok(Some(String::from_str(alloc, word)?)),
    }
}

/// The bytes of a column, unless it is `none`.
fn raw_of(alloc: Global, word: &str) -> Result<Option<Vec<u8>>, Flaw> {
    match word {
        "none" => Ok(None),
        _ => Ok(Some(bytes_of(alloc, word)?)),
    }
}

/// The value of a JSON text.
fn value_of(alloc: Global, word: &str) -> Result<Value, Flaw> {
    let text = text_of(alloc, word)?;
    given(Value::from_str(alloc, text.as_str()))
}

/// The entry that the columns describe.
fn entry_of(alloc: Global, columns: Columns<'_>) -> Result<SerializableMetadata, Flaw> {
    let time = given(columns.time.parse::<u128>())?;
    let size = number_of(columns.size)?;
    let key = text_of(alloc, plain(columns.key))?;
    let integrity = integrity_of(alloc, columns.integrity)?;
    let raw_metadata = raw_of(alloc, columns.raw_metadata)?;
    let metadata = value_of(alloc, columns.metadata)?;
    Ok(SerializableMetadata {
        key,
        integrity,
        time,
        size,
        metadata,
        raw_metadata,
    })
}

/// Whether all fields of two entries are equal, whatever else their own equality compares.
fn say_the_same(one: &SerializableMetadata, other: &SerializableMetadata) -> bool {
    one.key == other.key
        && one.integrity == other.integrity
        && one.time == other.time
        && one.size == other.size
        && one.metadata == other.metadata
        && one.raw_metadata == other.raw_metadata
}

/// Whether the entries are only this one.
fn are_only(found: &[SerializableMetadata], entry: &SerializableMetadata) -> bool {
    match found {
        [read] => say_the_same(read, entry),
        _ => false,
    }
}

/// Whether the result of a lookup prints as the text of this line.
fn prints_as(alloc: Global, found: &Option<Metadata>, line: &[u8]) -> Result<bool, AllocError> {
    let Some(found) = found else {
        return Ok(false);
    };
    let printed = found.to_string(alloc)?;
    Ok(line.split_at_checked(TEXT).map(|(_head, text)| text) == Some(printed.as_bytes()))
}

/// The columns, with an integrity filled in if there is none: a lookup finds no entry without one.
fn findable(columns: Columns<'_>) -> Columns<'_> {
    match columns.integrity {
        "none" => Columns {
            integrity: "sha1-deadbeef",
            ..columns
        },
        _ => columns,
    }
}

/// Whether a lookup's result for the columns' entry prints as the text of that entry's line.
fn is_printed(alloc: Global, columns: Columns<'_>) -> Result<bool, Flaw> {
    let entry = entry_of(alloc, findable(columns))?;
    let line = given(cacache_entry::line(alloc, &entry))?;
    let lookup = given(latest(alloc, &line, entry.key.as_str()))?;
    let same = prints_as(alloc, &lookup.found, &line);
    let_go((lookup, entry));
    Ok(same?)
}

/// Whether a line reads back as only this entry and prints again, how long the line is, and the line.
fn shown(
    alloc: Global,
    columns: Columns<'_>,
    entry: &SerializableMetadata,
    line: &[u8],
) -> Result<String, Flaw> {
    let same = is_printed(alloc, columns)?;
    let found = given(entries(alloc, line))?;
    three(
        alloc,
        same && are_only(&found, entry),
        line.len(),
        word_of(line),
    )
}

/// What `shown` returns for an entry's line, or why there is no line.
fn written(
    alloc: Global,
    columns: Columns<'_>,
    entry: &SerializableMetadata,
) -> Result<String, Flaw> {
    match cacache_entry::line(alloc, entry) {
        Ok(line) => shown(alloc, columns, entry, &line),
        Err(error) => printed(alloc, Debugged(error)),
    }
}

/// Whether an entry's line reads back and prints again, how long it is, and the line; or why there is no line.
pub(crate) fn line(alloc: Global, columns: &str) -> Result<String, Flaw> {
    let columns = columns_of(columns);
    let entry = entry_of(alloc, columns)?;
    let written = written(alloc, columns, &entry);
    let_go(entry);
    written
}
