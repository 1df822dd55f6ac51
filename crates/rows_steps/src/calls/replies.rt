//! Replies as texts, in the words of rows.
use cacache_calls::{Found, Items, Reply};
use cacache_core::errors::Error;
use cacache_core::keeping::beside;
use rows::answers::shown_error;
use rows::words::word_of;
use std::alloc::{AllocError, Global};

/// What a lookup found: the key, the integrity, the time and the size.
fn shown_found(alloc: Global, found: &Found) -> Result<String, AllocError> {
    let found = found.as_metadata();
    let key = found.key.as_str();
    let (integrity, time, size) = (&found.integrity, found.time, found.size);
    format!(in alloc; "Found {key} {integrity} {time} {size}")
}

/// An item of a listing.
fn shown_item(alloc: Global, item: &Result<Found, Error>) -> Result<String, AllocError> {
    match item {
        Ok(found) => shown_found(alloc, found),
        Err(error) => shown_error(alloc, error),
    }
}

/// Puts the items of a listing after the text.
fn show_items(alloc: Global, items: &Items, text: &mut String) -> Result<(), AllocError> {
    for item in items.as_slice() {
        text.push_str("; ")?;
        text.push_str(shown_item(alloc, item)?.as_str())?;
    }
    Ok(())
}

/// The items of a listing.
fn shown_items(alloc: Global, items: &Items) -> Result<String, AllocError> {
    let mut text = String::from_str(alloc, "Listed")?;
    let (_, text) = beside(show_items(alloc, items, &mut text), text)?;
    Ok(text)
}

/// A reply in the words of a row.
pub(crate) fn shown_reply(alloc: Global, reply: &Reply) -> Result<String, AllocError> {
    match reply {
        Reply::Stored(integrity) => format!(in alloc; "Stored {integrity}"),
        Reply::Read(bytes) => format!(in alloc; "Read {}", word_of(bytes.as_slice())),
        Reply::LookedUp(None) => String::from_str(alloc, "Found nothing"),
        Reply::LookedUp(Some(found)) => shown_found(alloc, found),
        Reply::Exists(true) => String::from_str(alloc, "Exists yes"),
        Reply::Exists(false) => String::from_str(alloc, "Exists no"),
        Reply::Copied(count) => format!(in alloc; "Copied {count}"),
        Reply::Listed(items) => shown_items(alloc, items),
        Reply::Done => String::from_str(alloc, "Done"),
        Reply::Refused(error) => shown_error(alloc, error),
    }
}
