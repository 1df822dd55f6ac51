//! Lookups in a bucket's bytes.
use crate::values::words::{column, printed, two};
use cacache_core::keeping::let_go;
use cacache_entry::Lookup;
use rows::Flaw;
use rows::answers::given;
use rows::words::bytes_of;
use std::alloc::Global;

/// The time of what a lookup found, and how many pieces were decoded.
fn shown(alloc: Global, lookup: &Lookup) -> Result<String, Flaw> {
    match &lookup.found {
        Some(found) => two(alloc, found.time, lookup.pieces),
        None => two(alloc, "none", lookup.pieces),
    }
}

/// The time of what a lookup of a key finds, and how many pieces are decoded.
pub(crate) fn latest(alloc: Global, columns: &str) -> Result<String, Flaw> {
    let (key, bucket) = column(columns);
    let bucket = bytes_of(alloc, bucket)?;
    let lookup = given(cacache_entry::latest(alloc, &bucket, key))?;
    let shown = shown(alloc, &lookup);
    let_go(lookup);
    shown
}

/// Whether both results are values, and the values are equal.
fn are_equal<T: PartialEq + Drop, E: Drop>(one: Result<T, E>, other: Result<T, E>) -> bool {
    match (one, other) {
        (Ok(one), Ok(other)) => one == other,
        _ => false,
    }
}

/// Whether two lookups of a key find the same.
pub(crate) fn again(alloc: Global, columns: &str) -> Result<String, Flaw> {
    let (key, bucket) = column(columns);
    let bucket = bucket.as_bytes();
    let one = cacache_entry::latest(alloc, bucket, key);
    let other = cacache_entry::latest(alloc, bucket, key);
    printed(alloc, are_equal(one, other))
}
