//! Where contents lie.
pub use cacache_core::paths::content_path;
