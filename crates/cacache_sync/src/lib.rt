//! Calls that find, read, remove and write: keys are found, deleted and removed, contents are read at once and exported, and
//! contents and caches removed.
//!
//! - `by_hash`: exports of the content of an integrity
//! - `by_key`: exports of the content that a key names
//! - `content`: open handles on contents, which take or give bytes in pieces
//! - `damage`: which errors say that a content is damaged
//! - `entries`: entries that were found, as entries again and as texts
//! - `exporting`: exports: a content is copied, shares its storage, or has one more name
//! - `get_or_put`: bytes that are read, or fetched from elsewhere and stored
//! - `index`: keys are found and deleted
//! - `layers`: a cache over another one, which is only read
//! - `put`: calls that write bytes and links into a cache, and entries into its index
//! - `reading`: contents that are read at once, and the question whether one is there
//! - `rm`: calls that remove
//! - `ways`: exports that go the cheapest way that is open
#![tactic(auto)]

mod by_hash;
mod by_key;
pub mod content;
mod damage;
pub mod entries;
mod exporting;
mod get_or_put;
pub mod index;
mod layers;
pub mod put;
mod reading;
pub mod rm;
mod ways;

pub use by_hash::{
    copy_hash_sync, copy_hash_unchecked_sync, export_hash_sync, hard_link_hash_sync,
    hard_link_hash_unchecked_sync, reflink_hash_sync, reflink_hash_unchecked_sync,
};
pub use by_key::{
    copy_sync, copy_unchecked_sync, export_sync, hard_link_sync, hard_link_unchecked_sync,
    reflink_sync, reflink_unchecked_sync,
};
pub use damage::is_damage;
pub use exporting::{Named, copy_content, link_content};
pub use get_or_put::get_or_put_sync;
pub use layers::Layered;
pub use reading::{exists_sync, has_content, read_hash_sync, read_sync};
pub use ways::{ExportMode, Exported, export_content};
