//! Answers of public calls, as rows say them.
ghost use Rattle.std.specs.Prelude.{IfOk};
ghost use Rattle.cacache.specs.OpenHandles.{IsListing};

use crate::row::shown;
use cacache::content::read::Contents;
use cacache::ls::Ls;
use cacache::store::Store;
use cacache::{Exported, Integrity, Metadata, Result as Answered};
use rows::answers::refused;
use std::alloc::{AllocError, Global};

/// Two lines as one.
pub(crate) fn pair(
    alloc: Global,
    one: Result<String, AllocError>,
    other: Result<String, AllocError>,
) -> Result<String, AllocError> {
    let one = one?;
    let other = other?;
    format!(in alloc; "{one}, {other}")
}

/// The line on what was read.
pub(crate) fn read(alloc: Global, answer: Answered<Vec<u8>>) -> Result<String, AllocError> {
    match answer {
        Ok(bytes) => format!(in alloc; "Read {}", shown(alloc, &bytes)?),
        Err(error) => refused(alloc, error),
    }
}

/// The line on a call that says nothing.
pub(crate) fn done(alloc: Global, answer: Answered<()>) -> Result<String, AllocError> {
    match answer {
        Ok(()) => String::from_str(alloc, "Done"),
        Err(error) => refused(alloc, error),
    }
}

/// The line on a copy.
pub(crate) fn copied(alloc: Global, answer: Answered<u64>) -> Result<String, AllocError> {
    match answer {
        Ok(count) => format!(in alloc; "Copied {count}"),
        Err(error) => refused(alloc, error),
    }
}

/// The line on an export that goes the cheapest way.
pub(crate) fn sent(alloc: Global, answer: Answered<Exported>) -> Result<String, AllocError> {
    match answer {
        Ok(Exported::HardLinked) => String::from_str(alloc, "Hard-linked"),
        Ok(Exported::Copied(count)) => copied(alloc, Ok(count)),
        Err(error) => refused(alloc, error),
    }
}

/// The line on a question.
pub(crate) fn exists(alloc: Global, answer: Answered<bool>) -> Result<String, AllocError> {
    match answer {
        Ok(is_there) => String::from_str(alloc, if is_there { "Exists yes" } else { "Exists no" }),
        Err(error) => refused(alloc, error),
    }
}

/// The line on the integrity of a content that may be there.
pub(crate) fn has(
    alloc: Global,
    answer: Answered<Option<Integrity>>,
) -> Result<String, AllocError> {
    match answer {
        Ok(Some(integrity)) => format!(in alloc; "Has {integrity}"),
        Ok(None) => String::from_str(alloc, "Has nothing"),
        Err(error) => refused(alloc, error),
    }
}

/// The line on a cache's contents: their addresses, and the paths of all else.
pub(crate) fn contents(alloc: Global, answer: Answered<Contents>) -> Result<String, AllocError> {
    let contents = match answer {
        Ok(contents) => contents,
        Err(error) => return refused(alloc, error),
    };
    let mut line = String::from_str(alloc, "Contents")?;
    for address in &contents.addresses {
        line.push_str("; ")?;
        line.push_str(address.to_string(alloc)?.as_str())?;
    }
    for path in &contents.strange {
        line.push_str("; strange ")?;
        line.push_str(path.as_str())?;
    }
    Ok(line)
}

/// The line on an entry, from a copy of it: its key, integrity, time, size, metadata and raw metadata.
fn shown_entry(alloc: Global, entry: &Metadata) -> Result<String, AllocError> {
    let entry = entry.clone()?;
    let metadata = entry.metadata.to_string(alloc)?;
    let raw = &entry.raw_metadata;
    let (key, integrity) = (&entry.key, &entry.integrity);
    let (time, size) = (entry.time, entry.size);
    format!(in alloc; "Found {key} {integrity} {time} {size} {metadata} {raw:?}")
}

/// The line on what a lookup found.
pub(crate) fn found(
    alloc: Global,
    answer: Answered<Option<Metadata>>,
) -> Result<String, AllocError> {
    match answer {
        Ok(Some(entry)) => shown_entry(alloc, &entry),
        Ok(None) => String::from_str(alloc, "Found nothing"),
        Err(error) => refused(alloc, error),
    }
}

/// The line on an item of a listing.
fn item(alloc: Global, item: Answered<Metadata>) -> Result<String, AllocError> {
    match item {
        Ok(entry) => shown_entry(alloc, &entry),
        Err(error) => refused(alloc, error),
    }
}

/// One line more.
fn with(
    lines: Result<Vec<String>, AllocError>,
    line: Result<String, AllocError>,
) -> Result<Vec<String>, AllocError> {
    let mut lines = lines?;
    lines.push(line?)?;
    Ok(lines)
}

/// The line on each item.
fn lines_of<S: Store, C, N>(alloc: Global, items: Ls<S, C, N>) -> Result<Vec<String>, AllocError>
    requires { IsListing S.log items }
{
    let mut lines: Result<Vec<String>, AllocError> = Ok(Vec::new(alloc));
    for found in items {
        lines = with(lines, item(alloc, found));
    }
    lines
}

/// The lines after the word for a listing, sorted.
fn joined(alloc: Global, mut lines: Vec<String>) -> Result<String, AllocError> {
    lines.sort()?;
    let mut line = String::from_str(alloc, "Listed")?;
    for item in &lines {
        line.push_str("; ")?;
        line.push_str(item.as_str())?;
    }
    Ok(line)
}

/// The line on the first item of a listing, which is dropped then.
pub(crate) fn first<S: Store, C, N>(
    alloc: Global,
    answer: Answered<Ls<S, C, N>>,
) -> Result<String, AllocError>
    requires { IfOk answer (λ ls. IsListing S.log ls) }
{
    match answer {
        Ok(mut items) => match items.next() {
            Some(found) => item(alloc, found),
            None => String::from_str(alloc, "Listed"),
        },
        Err(error) => refused(alloc, error),
    }
}

/// The line on a listing: its items in the order of their lines.
pub(crate) fn listed<S: Store, C, N>(
    alloc: Global,
    answer: Answered<Ls<S, C, N>>,
) -> Result<String, AllocError>
    requires { IfOk answer (λ ls. IsListing S.log ls) }
{
    match answer {
        Ok(items) => joined(alloc, lines_of(alloc, items)?),
        Err(error) => refused(alloc, error),
    }
}
