//! What a call carries from one state to the next. Contracts use these types unchanged.
use crate::command::{Export, Options};
use cacache_core::integrity::Integrity;
use cacache_core::text::Text;

/// A content that is about to be stored: what identifies it, and its options.
#[derive(Drop)]
pub struct Commit {
    /// The cache's folder.
    pub cache: Text,
    /// The key of the entry that is added afterwards. Without a key no entry is added.
    pub key: Option<Text>,
    /// The integrity of the bytes.
    pub computed: Integrity,
    /// How many bytes there are.
    pub count: usize,
    /// The entry's time, in milliseconds since 1970.
    pub moment: u128,
    /// The options of the content and of its entry.
    pub options: Options,
}

/// The purpose of a lookup.
#[derive(Drop)]
pub enum Aim {
    /// To answer what the lookup found.
    Report,
    /// To read the content that it found.
    Read,
    /// To export the content that it found.
    Export(Export),
    /// To remove the content that it found, and the bucket.
    Remove,
}

/// A key that is being looked up.
#[derive(Drop)]
pub struct Lookup {
    /// The cache's folder.
    pub cache: Text,
    /// The key.
    pub key: Text,
    /// The purpose of the lookup.
    pub aim: Aim,
}

/// A content that is read, exported or checked for existence.
#[derive(Drop)]
pub struct Content {
    /// The cache's folder.
    pub cache: Text,
    /// The integrity that identifies the content.
    pub integrity: Integrity,
}
