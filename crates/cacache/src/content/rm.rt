//! Removals of contents.
pub use cacache_async::rm::{RemoveHashFuture as RmAsyncFuture, remove_hash as rm_async};
pub use cacache_sync::rm::remove_hash_sync as rm;
