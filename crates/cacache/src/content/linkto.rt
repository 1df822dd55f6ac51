//! Links to files, which become contents.
pub use cacache_async::linker::{
    ToLinker as AsyncToLinker, ToLinkerCommitFuture as AsyncToLinkerCommitFuture,
};
pub use cacache_async::linking::AsyncToLinkerNewFuture;
pub use cacache_sync::put::linker::SyncToLinker as ToLinker;
