//! Listings of the index.
pub use cacache_walks::{Ls, ls as list_sync};
