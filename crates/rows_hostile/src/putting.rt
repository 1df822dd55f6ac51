//! A put, move by move.
use crate::facts::{BUCKET, CACHE, Content, INDEX, KEY, TEMPS};
use crate::model::{After, At, Going};
use crate::texts::{failed, failed_at, failed_in, stored};
use crate::value::{Value, made_up, taken};
use cacache_core::errors::Fault;
use cacache_disk::Luck;
use std::alloc::{AllocError, Global};

/// A write's bytes weren't taken.
fn unwritten(alloc: Global, fault: Fault) -> Result<After, AllocError> {
    let message = format!(in alloc; "Failed to write to cache data for key {KEY} for cache at")?;
    Ok(After::Over(failed_in(alloc, fault, message.as_str(), CACHE)?))
}

/// The folders of temporary files, of the content or of the bucket are made; then comes another step.
fn folders(
    alloc: Global,
    value: &mut Value,
    all: &[&'static str],
    luck: Luck,
    then: At,
    message: &str,
) -> Result<After, AllocError> {
    value.make_folders(all, luck)?;
    match made_up(luck) {
        None => Ok(After::On(then)),
        Some(fault) => Ok(After::Over(failed(alloc, fault, message)?)),
    }
}

/// The temporary file is made.
fn temp(alloc: Global, value: &mut Value, number: u64, luck: Luck) -> Result<After, AllocError> {
    if let Some(fault) = made_up(luck) {
        let message = "Failed to create temp file while initializing a writer, inside";
        return Ok(After::Over(failed_at(alloc, fault, message, "/cache/tmp")?));
    }
    value.make_temp(number)?;
    Ok(After::On(At::Write(0)))
}

/// Bytes are written after those that were there.
fn write(alloc: Global, content: Content, before: usize, luck: Luck) -> Result<After, AllocError> {
    if let Some(fault) = made_up(luck) {
        return unwritten(alloc, fault);
    }
    let left = content.text().len().saturating_sub(before);
    let count = taken(luck, left);
    if count == 0 {
        return unwritten(alloc, Fault::WriteZero);
    }
    if count == left {
        return Ok(After::On(At::ContentFolder));
    }
    Ok(After::On(At::Write(before.saturating_add(count))))
}

/// The temporary file moves to the content's place.
fn persist(
    value: &mut Value,
    number: u64,
    content: Content,
    luck: Luck,
) -> Result<After, AllocError> {
    if let Some(fault) = made_up(luck) {
        return Ok(After::On(At::Ask(fault)));
    }
    value.put(number, content)?;
    Ok(After::On(At::IndexFolder))
}

/// The persist failed: it is asked whether the content is there.
fn ask(
    alloc: Global,
    value: &Value,
    content: Content,
    fault: Fault,
    luck: Luck,
) -> Result<After, AllocError> {
    if value.has(content) && made_up(luck).is_none() {
        return Ok(After::On(At::IndexFolder));
    }
    let message = "Failed to persist cache contents while closing writer, at";
    Ok(After::Over(failed_at(alloc, fault, message, content.path())?))
}

/// The line of the entry is appended.
fn append(
    alloc: Global,
    value: &mut Value,
    content: Content,
    luck: Luck,
) -> Result<After, AllocError> {
    let message = "Failed to write to index bucket at";
    if let Some(fault) = made_up(luck) {
        value.tear(content, luck)?;
        return Ok(After::Over(failed_in(alloc, fault, message, BUCKET)?));
    }
    let all = content.line().len().saturating_add(1);
    let count = taken(luck, all);
    value.append(content, count)?;
    if count < all {
        return Ok(After::Over(failed_in(alloc, Fault::ShortAppend, message, BUCKET)?));
    }
    Ok(After::Over(stored(alloc, content)?))
}

/// The folder of the content is made.
fn content_folder(
    alloc: Global,
    value: &mut Value,
    content: Content,
    luck: Luck,
) -> Result<After, AllocError> {
    let all = content.folders();
    let words = "Failed to create destination directory for cache contents, at";
    let message = format!(in alloc; "{words} {}", folder_of(content.path()))?;
    folders(alloc, value, &all, luck, At::Persist, message.as_str())
}

/// The folder of the bucket is made.
fn index_folder(alloc: Global, value: &mut Value, luck: Luck) -> Result<After, AllocError> {
    let words = "Failed to create index bucket directory:";
    let message = format!(in alloc; "{words} \"{}\"", folder_of(BUCKET))?;
    folders(alloc, value, &INDEX, luck, At::Append, message.as_str())
}

/// The folder of a path.
fn folder_of(path: &str) -> &str {
    match path.rsplit_once('/') {
        Some((folder, _)) => folder,
        None => "",
    }
}

/// The next step of a put.
pub(crate) fn put(
    alloc: Global,
    value: &mut Value,
    going: Going,
    content: Content,
    luck: Luck,
) -> Result<After, AllocError> {
    match going.at {
        At::TempFolder => {
            let message = "Failed to create cache directory for temporary files, at /cache/tmp";
            folders(alloc, value, &TEMPS, luck, At::Temp, message)
        }
        At::Temp => temp(alloc, value, going.number, luck),
        At::Write(before) => write(alloc, content, before, luck),
        At::ContentFolder => content_folder(alloc, value, content, luck),
        at => commit(alloc, value, Going { at, ..going }, content, luck),
    }
}

/// The next step of a put once the content's folder is there.
fn commit(
    alloc: Global,
    value: &mut Value,
    going: Going,
    content: Content,
    luck: Luck,
) -> Result<After, AllocError> {
    match going.at {
        At::Persist => persist(value, going.number, content, luck),
        At::Ask(fault) => ask(alloc, value, content, fault, luck),
        At::IndexFolder => index_folder(alloc, value, luck),
        _ => append(alloc, value, content, luck),
    }
}
