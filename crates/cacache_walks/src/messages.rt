//! The texts of a walk's errors when a step failed. No contract covers these texts; tests show them.
use cacache_core::text::Text;
use std::alloc::{AllocError, Global};

pub(crate) fn clearing_folder(alloc: Global, path: &Text) -> Result<Text, AllocError> {
    Ok(Text::new(format!(in alloc;
        "Failed to read directory contents while clearing cache, at {path}"
    )?))
}

pub(crate) fn clearing(alloc: Global, path: &Text) -> Result<Text, AllocError> {
    Ok(Text::new(format!(in alloc; "Failed to clear cache at {path}")?))
}

pub(crate) fn listing_folder(alloc: Global, path: &Text) -> Result<Text, AllocError> {
    Ok(Text::new(format!(in alloc; "Error while walking cache index directory at {path}")?))
}

pub(crate) fn listing_bucket(alloc: Global, path: &Text) -> Result<Text, AllocError> {
    Ok(Text::new(format!(in alloc; "Error getting bucket entries from {path}")?))
}
