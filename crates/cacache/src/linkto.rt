//! Calls that make a content of a link to a file.
pub use cacache_async::linker::{ToLinker, ToLinkerCommitFuture};
pub use cacache_async::linking::{ToLinkerOpenFuture, ToLinkerOpenHashFuture};
pub use cacache_async::linkto::{LinkToFuture, LinkToHashFuture, link_to, link_to_hash};
pub use cacache_sync::put::linker::SyncToLinker;
pub use cacache_sync::put::linkto::{link_to_hash_sync, link_to_sync};
