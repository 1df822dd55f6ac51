//! Calls that store bytes.
pub use cacache_async::linking::{LinkAsync, WriteOptsLinkToFuture, WriteOptsLinkToHashFuture};
pub use cacache_async::put::{
    WriteFuture, WriteHashFuture, WriteHashWithAlgoFuture, WriteWithAlgoFuture, write, write_hash,
    write_hash_with_algo, write_with_algo,
};
pub use cacache_sync::put::bytes::{
    write_hash_sync, write_hash_sync_with_algo, write_hash_vec_sync, write_hash_vec_sync_with_algo,
    write_sync, write_sync_with_algo, write_vec_sync, write_vec_sync_with_algo,
};
pub use cacache_sync::put::opts::WriteOpts;
pub use cacache_sync::put::writer::SyncWriter;
pub use cacache_writers::{
    OpenAsync, WriteOptsOpenFuture, WriteOptsOpenHashFuture, Writer, WriterCommitFuture,
    WriterCreateFuture, WriterCreateWithAlgoFuture,
};
