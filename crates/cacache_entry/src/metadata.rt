//! What the index says about a key.
ghost use Rattle.std.specs.{Prelude.{◌≡◌, string_bytes, nat_eq}, Cmp.Lexicographic.{pointwise, bytes_decides, nat_list_eq_equiv}, Ordering.{on}};
ghost use Rattle.std.specs.Cmp;
ghost use Rattle.std.specs.Hash as fed;
ghost use Rattle.cacache_entry.specs.{View.{found_view}, declared.metadata.SerializableMetadata.{SerializableMetadata as Said}};

use crate::printing::{Numbers, Quoted};
use cacache_core::integrity::Integrity;
use serde_json::Value;
use std::alloc::AllocError;
use std::fmt;
use std::hash::{Hash, Hasher};

/// What a line of a bucket says about a key. Two with the same key are equal and hash equally, whatever else they say.
#[derive(Debug, Drop)]
pub struct SerializableMetadata {
    /// The key.
    pub key: String,
    /// The text of the content's integrity. `None` in a tombstone, which says that the key was deleted.
    pub integrity: Option<String>,
    /// When the entry was made, in milliseconds since 1970.
    pub time: u128,
    /// The content's size in bytes.
    pub size: usize,
    /// Any data that the writer stored with the content.
    pub metadata: Value,
    /// Any bytes that the writer stored with the content.
    pub raw_metadata: Option<Vec<u8>>,
}

impl PartialEq for SerializableMetadata {
    ghost eq = { on (λ e. string_bytes e.key) (pointwise nat_eq) };

    ghost laws = { Cmp.partial_equiv_from_equiv
        (Cmp.on_equiv (λ (e : Said). string_bytes e.key) nat_list_eq_equiv) };

    fn eq(&self, other: &SerializableMetadata) -> bool {
        self.key.as_str() == other.key.as_str()
    }
}

impl Eq for SerializableMetadata {
    ghost laws = { Cmp.on_equiv (λ (e : Said). string_bytes e.key) nat_list_eq_equiv };
}

impl Hash for SerializableMetadata {
    ghost hash_input = { λ e. fed.str (string_bytes e.key) };

    ghost respects_eq = { (fed.on_Alike (λ (e : Said). string_bytes e.key)
        (fed.same_Alike fed.str bytes_decides)).fed };

    fn hash<H: Hasher>(&self, state: &mut H) {
        self.key.as_str().hash(state);
    }
}

/// What a lookup found for a key. It comes from the index alone: the content may have been removed since.
#[derive(Debug, Drop, PartialEq)]
pub struct Metadata {
    /// The key.
    pub key: String,
    /// The content's integrity.
    pub integrity: Integrity,
    /// When the entry was made, in milliseconds since 1970.
    pub time: u128,
    /// The content's size in bytes.
    pub size: usize,
    /// Any data that the writer stored with the content.
    pub metadata: Value,
    /// Any bytes that the writer stored with the content.
    pub raw_metadata: Option<Vec<u8>>,
}

impl Clone for Metadata {
    ghost is_clone = { λ metadata copy. found_view copy ≡ found_view metadata };

    fn clone(&self) -> Result<Metadata, AllocError> {
        Ok(Metadata {
            key: self.key.clone()?,
            integrity: self.integrity.clone()?,
            time: self.time,
            size: self.size,
            metadata: self.metadata.clone()?,
            raw_metadata: self.raw_metadata.clone()?,
        })
    }
}

/// The compact JSON text that an entry with these parts has in its line. Allocates no memory.
impl fmt::Display for Metadata {
    fn fmt<W: fmt::Write>(&self, f: &mut fmt::Formatter<W>) -> fmt::Result {
        write!(
            f,
            "{{\"key\":{},\"integrity\":\"{}\",\"time\":{},\"size\":{}",
            Quoted(self.key.as_str()),
            self.integrity,
            self.time,
            self.size
        )?;
        write!(
            f,
            ",\"metadata\":{},\"raw_metadata\":{}}}",
            self.metadata,
            Numbers(&self.raw_metadata)
        )
    }
}
