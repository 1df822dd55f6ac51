//! Calls that read and export.
pub use cacache_async::exports::{
    CopyFuture, CopyHashFuture, CopyHashUncheckedFuture, CopyUncheckedFuture, HardLinkFuture,
    HardLinkHashFuture, ReflinkFuture, ReflinkHashFuture, ReflinkUncheckedFuture, copy, copy_hash,
    copy_hash_unchecked, copy_unchecked, hard_link, hard_link_hash, reflink, reflink_hash,
    reflink_unchecked,
};
pub use cacache_async::index::{FindAsyncFuture as MetadataFuture, find_async as metadata};
pub use cacache_async::read::{ExistsFuture, ReadFuture, ReadHashFuture, exists, read, read_hash};
pub use cacache_async::reader::{Reader, ReaderOpenFuture, ReaderOpenHashFuture};
pub use cacache_async::ways::{ExportFuture, ExportHashFuture, export, export_hash};
pub use cacache_sync::content::reader::SyncReader;
pub use cacache_sync::index::find as metadata_sync;
pub use cacache_sync::{
    ExportMode, Exported, Layered, copy_hash_sync, copy_hash_unchecked_sync, copy_sync,
    copy_unchecked_sync, exists_sync, export_hash_sync, export_sync, get_or_put_sync,
    hard_link_hash_sync, hard_link_hash_unchecked_sync, hard_link_sync, hard_link_unchecked_sync,
    read_hash_sync, read_sync, reflink_hash_sync, reflink_hash_unchecked_sync, reflink_sync,
    reflink_unchecked_sync,
};
