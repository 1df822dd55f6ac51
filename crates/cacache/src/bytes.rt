//! Bytes that are shared instead of being copied.
pub use cacache_core::bytes::Bytes;
