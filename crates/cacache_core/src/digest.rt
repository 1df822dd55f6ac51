//! Digests, and hashes that name their algorithm.
pub use crate::integrity::digest::{Digest, Hash};
