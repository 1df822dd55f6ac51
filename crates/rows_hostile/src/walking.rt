//! A listing, move by move. Each folder of the index holds the next one alone, and the last one the bucket.
use crate::facts::{BUCKET, INDEX};
use crate::model::{After, At};
use crate::texts::{failed_at, found};
use crate::value::{Value, made_up};
use cacache_core::errors::Fault;
use cacache_disk::Luck;
use std::alloc::{AllocError, Global};

/// The index.
const TOP: &str = "/cache/index-v5";

/// The listing is over, with this item or with none.
fn listed(alloc: Global, item: Option<String>) -> Result<After, AllocError> {
    Ok(After::Over(match item {
        Some(item) => format!(in alloc; "listed; {item}")?,
        None => String::from_str(alloc, "listed")?,
    }))
}

/// The folder of the index at this level, if there is such a level; the upmost is the index itself.
fn folder_at(level: usize) -> Option<&'static str> {
    INDEX.get(level.saturating_add(1)).copied()
}

/// What is below the folder of this level: another one, the bucket, or nothing.
fn below(value: &Value, level: usize) -> bool {
    match folder_at(level.saturating_add(1)) {
        Some(folder) => value.has_folder(folder),
        None => value.has_bucket(),
    }
}

/// A folder of the index is listed.
fn list(
    alloc: Global,
    value: &Value,
    folder: &str,
    level: usize,
    luck: Luck,
) -> Result<After, AllocError> {
    let fault = if value.has_folder(folder) {
        made_up(luck)
    } else {
        Some(Fault::NotFound)
    };
    if let Some(fault) = fault {
        let message = "Error while walking cache index directory at";
        let item = failed_at(alloc, fault, message, TOP)?;
        return listed(alloc, Some(item));
    }
    if below(value, level) {
        return Ok(After::On(At::Level(level.saturating_add(1))));
    }
    listed(alloc, None)
}

/// The bucket is read.
fn bucket(alloc: Global, value: &Value, luck: Luck) -> Result<After, AllocError> {
    if let Some(fault) = made_up(luck).filter(|_| value.has_bucket()) {
        let message = "Error getting bucket entries from";
        let item = failed_at(alloc, fault, message, BUCKET)?;
        return listed(alloc, Some(item));
    }
    match value.newest()? {
        Some(content) => {
            let item = found(alloc, content)?;
            listed(alloc, Some(item))
        }
        None => listed(alloc, None),
    }
}

/// The next step of a listing.
pub(crate) fn walk(alloc: Global, value: &Value, at: At, luck: Luck) -> Result<After, AllocError> {
    let level = match at {
        At::Level(level) => level,
        _ => 0,
    };
    match folder_at(level) {
        Some(folder) => list(alloc, value, folder, level, luck),
        None => bucket(alloc, value, luck),
    }
}
