//! The bottom layer of the cache: errors, integrities and their digests, shared bytes, and the
//! paths of contents, buckets and temporary files.
#![tactic(auto)]

pub mod bytes;
pub mod digest;
pub mod errors;
pub mod hasher;
pub mod integrity;
pub mod keeping;
pub mod laws;
pub mod paths;
pub mod text;
