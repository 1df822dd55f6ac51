//! Calls that remove.
pub use cacache_async::index::{DeleteAsyncFuture as RemoveFuture, delete_async as remove};
pub use cacache_async::rm::{ClearFuture, RemoveHashFuture, clear, remove_hash};
pub use cacache_sync::index::delete as remove_sync;
pub use cacache_sync::rm::{clear_sync, remove_hash_sync};
