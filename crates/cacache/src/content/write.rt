//! Writers of contents.
pub use cacache_sync::content::writer::Writer;
pub use cacache_writers::{AsyncWriterCloseFuture, AsyncWriterNewFuture, Writer as AsyncWriter};
