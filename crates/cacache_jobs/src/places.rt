//! The paths in a call's steps.
ghost use Rattle.std.specs.Prelude.{◌≡◌, IfOk};
ghost use Rattle.cacache_calls.specs.Steps.{temp_path as temp_path_of, temp_folder as temp_folder_of, content_path as content_path_of, content_folder as content_folder_of, bucket_path as bucket_path_of, bucket_folder as bucket_folder_of, content_folders as content_folders_of, bucket_folders as bucket_folders_of};

use cacache_core::integrity::Integrity;
use cacache_core::paths::{self, Place};
use cacache_core::text::Text;
use std::alloc::{AllocError, Global};

/// The folder of temporary files.
#[tactic(auto, unfolding(cacache_calls::specs::Steps::temp_folder))]
pub fn temp_folder(alloc: Global, cache: &str) -> Result<Text, AllocError>
    ensures { IfOk result (λ path. path ≡ temp_folder_of cache.now) }
{
    paths::join(alloc, cache, paths::TEMP_AREA)
}

/// The path of the temporary file with this number.
#[tactic(auto, unfolding(cacache_calls::specs::Steps::temp_path))]
pub fn temp_path(alloc: Global, cache: &str, number: u64) -> Result<Text, AllocError>
    ensures { IfOk result (λ path. path ≡ temp_path_of cache.now number) }
{
    Ok(paths::temp_place(alloc, cache, number)?.path)
}

/// The path of an integrity's content.
#[tactic(auto, unfolding(cacache_calls::specs::Steps::content_path))]
pub fn content_path(alloc: Global, cache: &str, integrity: &Integrity) -> Result<Text, AllocError>
    ensures { IfOk result (λ path. path ≡ content_path_of cache.now integrity.now) }
{
    let _address = integrity.address();
    paths::content_path(alloc, cache, integrity)
}

/// The path of an integrity's content, and its folder.
#[tactic(auto, unfolding(cacache_calls::specs::Steps::content_path, cacache_calls::specs::Steps::content_folder))]
pub(crate) fn content_place(
    alloc: Global,
    cache: &str,
    integrity: &Integrity,
) -> Result<Place, AllocError>
    ensures folder { IfOk result
        (λ place. place.folder ≡ content_folder_of cache.now integrity.now) }
    ensures path { IfOk result (λ place. place.path ≡ content_path_of cache.now integrity.now) }
{
    let _address = integrity.address();
    paths::content_place(alloc, cache, integrity)
}

/// The folders that lead to an integrity's content, the cache's own first.
#[tactic(auto, unfolding(cacache_calls::specs::Steps::content_folders))]
pub(crate) fn content_folders(
    alloc: Global,
    cache: &str,
    integrity: &Integrity,
) -> Result<Vec<Text>, AllocError>
    ensures { IfOk result
        (λ folders. folders.items ≡ content_folders_of cache.now integrity.now) }
{
    let _address = integrity.address();
    paths::content_folders(alloc, cache, integrity)
}

/// The path of a key's bucket.
#[tactic(auto, unfolding(cacache_calls::specs::Steps::bucket_path))]
pub fn bucket_path(alloc: Global, cache: &str, key: &str) -> Result<Text, AllocError>
    ensures { IfOk result (λ path. path ≡ bucket_path_of cache.now key.now) }
{
    paths::bucket_path(alloc, cache, key)
}

/// The path of a key's bucket, and its folder.
#[tactic(auto, unfolding(cacache_calls::specs::Steps::bucket_path, cacache_calls::specs::Steps::bucket_folder))]
pub fn bucket_place(alloc: Global, cache: &str, key: &str) -> Result<Place, AllocError>
    ensures folder { IfOk result (λ place. place.folder ≡ bucket_folder_of cache.now key.now) }
    ensures path { IfOk result (λ place. place.path ≡ bucket_path_of cache.now key.now) }
{
    paths::bucket_place(alloc, cache, key)
}

/// The folders that lead to a key's bucket, the cache's own first.
#[tactic(auto, unfolding(cacache_calls::specs::Steps::bucket_folders))]
pub(crate) fn bucket_folders(alloc: Global, cache: &str, key: &str) -> Result<Vec<Text>, AllocError>
    ensures { IfOk result
        (λ folders. folders.items ≡ bucket_folders_of cache.now key.now) }
{
    paths::bucket_folders(alloc, cache, key)
}
