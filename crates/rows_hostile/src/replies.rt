//! Replies of a world in words.
use cacache_calls::{Found, Items, Reply};
use cacache_core::errors::Error;
use cacache_core::keeping::{beside, let_go};
use cacache_world::Move;
use rows::words::word_of;
use std::alloc::{AllocError, Global};

/// The reply of a call for which there was no memory.
pub(crate) const NO_MEMORY: &str = "refused: out of memory";

/// Why a call failed.
fn shown_error(alloc: Global, error: &Error) -> Result<String, AllocError> {
    match error {
        Error::IoError(fault, message) => format!(in alloc; "failed {fault:?}: {message}"),
        error => format!(in alloc; "refused: {error}"),
    }
}

/// What a lookup found.
fn shown_found(alloc: Global, found: &Found) -> Result<String, AllocError> {
    let found = found.as_metadata();
    let (key, integrity) = (found.key.as_str(), &found.integrity);
    let (time, size, raw) = (found.time, found.size, &found.raw_metadata);
    format!(in alloc; "found {key} {integrity} {time} {size} {raw:?}")
}

/// Adds the items of a listing.
fn add_items(alloc: Global, text: &mut String, items: &Items) -> Result<(), AllocError> {
    for item in items.as_slice() {
        text.push_str("; ")?;
        let item = match item {
            Ok(found) => shown_found(alloc, found)?,
            Err(error) => shown_error(alloc, error)?,
        };
        text.push_str(item.as_str())?;
    }
    Ok(())
}

/// The items of a listing.
fn shown_items(alloc: Global, items: &Items) -> Result<String, AllocError> {
    let mut text = String::from_str(alloc, "listed")?;
    let (_, text) = beside(add_items(alloc, &mut text, items), text)?;
    Ok(text)
}

/// A reply in words. No call of the scripts copies, or asks whether a content is there.
fn shown_reply(alloc: Global, reply: &Reply) -> Result<String, AllocError> {
    match reply {
        Reply::Stored(integrity) => format!(in alloc; "stored {integrity}"),
        Reply::Read(bytes) => format!(in alloc; "read {}", word_of(bytes.as_slice())),
        Reply::LookedUp(None) => String::from_str(alloc, "nothing"),
        Reply::LookedUp(Some(found)) => shown_found(alloc, found),
        Reply::Listed(items) => shown_items(alloc, items),
        Reply::Done => String::from_str(alloc, "done"),
        Reply::Refused(error) => shown_error(alloc, error),
        _ => String::from_str(alloc, "a reply of another kind"),
    }
}

/// What a caller gets from its move: the reply, if the call is over.
pub(crate) fn told(alloc: Global, moved: Move) -> Result<Option<String>, AllocError> {
    match moved {
        Move::More => Ok(None),
        Move::Done(reply) => {
            let text = shown_reply(alloc, &reply);
            let_go(reply);
            Ok(Some(text?))
        }
    }
}
