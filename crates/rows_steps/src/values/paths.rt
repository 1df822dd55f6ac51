//! Paths below a cache.
use crate::values::words::{column, plain, printed, three, two};
use cacache_core::integrity::Integrity;
use cacache_core::paths::{
    bucket_path, bucket_place, content_path, content_place, join, temp_place,
};
use rows::Flaw;
use rows::answers::given;
use rows::words::number_of;
use std::alloc::Global;

/// The folder and the path of a content's place, and the content's path.
pub(crate) fn content(alloc: Global, columns: &str) -> Result<String, Flaw> {
    let (cache, text) = column(columns);
    let cache = plain(cache);
    let integrity = given(Integrity::parse(alloc, text))?;
    let path = content_path(alloc, cache, &integrity)?;
    let place = content_place(alloc, cache, &integrity)?;
    three(alloc, place.folder, place.path, path)
}

/// The folder and the path of a bucket's place, and the bucket's path.
pub(crate) fn bucket(alloc: Global, columns: &str) -> Result<String, Flaw> {
    let (cache, key) = column(columns);
    let key = plain(key);
    let path = bucket_path(alloc, cache, key)?;
    let place = bucket_place(alloc, cache, key)?;
    three(alloc, place.folder, place.path, path)
}

/// The folder and the path of a temporary file's place.
pub(crate) fn temp(alloc: Global, columns: &str) -> Result<String, Flaw> {
    let (cache, number) = column(columns);
    let number = number_of(number)?;
    let place = temp_place(alloc, plain(cache), number as u64)?;
    two(alloc, place.folder, place.path)
}

/// A path and a name below it.
pub(crate) fn joined(alloc: Global, columns: &str) -> Result<String, Flaw> {
    let (path, name) = column(columns);
    printed(alloc, join(alloc, path, name)?)
}
