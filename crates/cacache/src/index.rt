//! The index: calls on it, entries, the lines that hold them, and the lookup of a key in a bucket's bytes.
pub use cacache_async::index::{
    DeleteAsyncFuture, FindAsyncFuture, InsertAsyncFuture, delete_async, find_async, insert_async,
};
pub use cacache_async::rm::{RemoveAsync, RemoveOptsRemoveFuture};
pub use cacache_entry::{Lookup, Metadata, SerializableMetadata, entries, latest, line};
pub use cacache_sync::entries::{entry_of, text};
pub use cacache_sync::index::{delete, find};
pub use cacache_sync::put::index::insert;
pub use cacache_sync::rm::RemoveOpts;
pub use cacache_walks::ls;
