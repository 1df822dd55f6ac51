//! Calls that look a key up, move by move.
use crate::facts::{BUCKET, Content};
use crate::model::{After, At};
use crate::texts::{failed_at, failed_in, found, no_entry, read};
use crate::value::{Value, made_up};
use cacache_core::errors::Fault;
use cacache_disk::Luck;
use std::alloc::{AllocError, Global};

/// What a bucket shows that is read: the content of its newest entry, if there is one, or why it couldn't be read. A bucket
/// that isn't there is an empty one, whatever the luck.
fn look(value: &Value, luck: Luck) -> Result<Result<Option<Content>, Fault>, AllocError> {
    match made_up(luck) {
        Some(fault) if value.has_bucket() => Ok(Err(fault)),
        _ => Ok(Ok(value.newest()?)),
    }
}

/// The bucket couldn't be read.
fn unread(alloc: Global, fault: Fault) -> Result<After, AllocError> {
    let message = "Failed to read index bucket entries from";
    Ok(After::Over(failed_in(alloc, fault, message, BUCKET)?))
}

/// The next step of a lookup, which has one.
pub(crate) fn seek(alloc: Global, value: &Value, luck: Luck) -> Result<After, AllocError> {
    match look(value, luck)? {
        Err(fault) => unread(alloc, fault),
        Ok(None) => Ok(After::Over(String::from_str(alloc, "nothing")?)),
        Ok(Some(content)) => Ok(After::Over(found(alloc, content)?)),
    }
}

/// Why a content can't be had, if so.
fn fault_at(value: &Value, content: Content, luck: Luck) -> Option<Fault> {
    if value.has(content) {
        made_up(luck)
    } else {
        Some(Fault::NotFound)
    }
}

/// The content that a lookup found is read.
fn give(alloc: Global, value: &Value, content: Content, luck: Luck) -> Result<After, AllocError> {
    if let Some(fault) = fault_at(value, content, luck) {
        let message = "Failed to read contents for file at";
        return Ok(After::Over(failed_at(alloc, fault, message, content.path())?));
    }
    Ok(After::Over(read(alloc, content)?))
}

/// The next step of a read by key.
pub(crate) fn get(alloc: Global, value: &Value, at: At, luck: Luck) -> Result<After, AllocError> {
    if let At::Content(content) = at {
        return give(alloc, value, content, luck);
    }
    match look(value, luck)? {
        Err(fault) => unread(alloc, fault),
        Ok(None) => Ok(After::Over(no_entry(alloc)?)),
        Ok(Some(content)) => Ok(After::On(At::Content(content))),
    }
}

/// The content that a lookup found is removed.
fn remove_content(
    alloc: Global,
    value: &mut Value,
    content: Content,
    luck: Luck,
) -> Result<After, AllocError> {
    if let Some(fault) = fault_at(value, content, luck) {
        let message = "Failed to remove content at";
        return Ok(After::Over(failed_in(alloc, fault, message, content.path())?));
    }
    value.drop_content(content)?;
    Ok(After::On(At::Bucket))
}

/// The bucket is removed.
fn remove_bucket(alloc: Global, value: &mut Value, luck: Luck) -> Result<After, AllocError> {
    let fault = if value.has_bucket() {
        made_up(luck)
    } else {
        Some(Fault::NotFound)
    };
    if let Some(fault) = fault {
        let message = "Failed to remove bucket at";
        return Ok(After::Over(failed_in(alloc, fault, message, BUCKET)?));
    }
    value.drop_bucket();
    Ok(After::Over(String::from_str(alloc, "done")?))
}

/// The next step of a full removal.
pub(crate) fn remove(
    alloc: Global,
    value: &mut Value,
    at: At,
    luck: Luck,
) -> Result<After, AllocError> {
    match at {
        At::Content(content) => return remove_content(alloc, value, content, luck),
        At::Bucket => return remove_bucket(alloc, value, luck),
        _ => {}
    }
    match look(value, luck)? {
        Err(fault) => unread(alloc, fault),
        Ok(None) => Ok(After::On(At::Bucket)),
        Ok(Some(content)) => Ok(After::On(At::Content(content))),
    }
}
