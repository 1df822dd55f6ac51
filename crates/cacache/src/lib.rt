//! A content-addressed disk cache: bytes are stored once under what they are known by, found again by a key or by
//! their integrity, and verified whenever they are read. This crate re-exports what the others hold.
//!
//! What the ends of a call's name say:
//!
//! - `_sync`: the call is made at once, and without that end it is a future. In the modules `content` and `index` it is
//!   the other way round: there the name of a function's future ends in `_async`. Methods keep `_sync`.
//! - `_hash`: a content is stored or named by its integrity alone. The index isn't asked, so no key is needed and no
//!   entry.
//! - `_unchecked`: the content isn't verified.
//! - `_with_algo`: the caller chooses the algorithm of the integrity, which is SHA-256 otherwise.
//! - `_vec`: the bytes are moved in, so none is copied.
#![tactic(auto)]

pub mod bytes;
pub mod content;
pub mod env;
pub mod errors;
pub mod get;
pub mod index;
pub mod integrity;
pub mod jobs;
pub mod laws;
pub mod linkto;
pub mod ls;
pub mod polled;
pub mod put;
pub mod rm;
pub mod store;
pub mod text;
pub mod world;

pub use errors::{Error, Fault, Result};
pub use get::{
    ExportMode, Exported, Layered, Reader, SyncReader, copy, copy_hash, copy_hash_sync,
    copy_hash_unchecked, copy_hash_unchecked_sync, copy_sync, copy_unchecked, copy_unchecked_sync,
    exists, exists_sync, export, export_hash, export_hash_sync, export_sync, get_or_put_sync,
    hard_link, hard_link_hash, hard_link_hash_sync, hard_link_hash_unchecked_sync, hard_link_sync,
    hard_link_unchecked_sync, metadata, metadata_sync, read, read_hash, read_hash_sync, read_sync,
    reflink, reflink_hash, reflink_hash_sync, reflink_hash_unchecked_sync, reflink_sync,
    reflink_unchecked, reflink_unchecked_sync,
};
pub use index::{Metadata, RemoveAsync, RemoveOpts};
pub use integrity::{Algorithm, Integrity, IntegrityOpts};
pub use linkto::{SyncToLinker, ToLinker, link_to, link_to_hash, link_to_hash_sync, link_to_sync};
pub use ls::{Ls, list_sync};
pub use put::{
    LinkAsync, OpenAsync, SyncWriter, WriteOpts, Writer, write, write_hash, write_hash_sync,
    write_hash_sync_with_algo, write_hash_vec_sync, write_hash_vec_sync_with_algo,
    write_hash_with_algo, write_sync, write_sync_with_algo, write_vec_sync,
    write_vec_sync_with_algo, write_with_algo,
};
pub use rm::{clear, clear_sync, remove, remove_hash, remove_hash_sync, remove_sync};
pub use serde_json::Value;
