//! One call on a cache as plain data.
ghost use Rattle.std.specs.Prelude.{◌≡◌, IfOk, Some};
ghost use Rattle.cacache_calls.specs.Common.{blank};

use crate::data::Json;
use cacache_core::bytes::Bytes;
use cacache_core::integrity::{Algorithm, Integrity};
use cacache_core::text::Text;
use serde_json::Value;
use std::alloc::AllocError;

/// What a writer may specify about a content and its entry.
#[derive(Debug, Drop)]
pub struct Options {
    /// The algorithm of the content's digest.
    pub algorithm: Algorithm,
    /// The expected size of the content, in bytes.
    pub size: Option<usize>,
    /// The expected integrity of the content.
    pub integrity: Option<Integrity>,
    /// Any data to store with the content.
    pub metadata: Json,
    /// Any bytes to store with the content.
    pub raw_metadata: Option<Bytes>,
    /// Whether the commit waits until it would survive a loss of power whole. Links ignore this.
    pub durable: bool,
}

/// Stores bytes as a content and, with a key, then adds its entry.
#[derive(Debug, Drop)]
pub struct Put {
    /// The key of the entry. Without a key no entry is made.
    pub key: Option<Text>,
    /// The bytes of the content.
    pub data: Bytes,
    /// The entry's time, in milliseconds since 1970. Without a key it has no effect.
    pub moment: u128,
    /// What the content must match, and what its entry says.
    pub options: Options,
}

/// Makes a link to a file a content and, with a key, then adds its entry.
#[derive(Debug, Drop)]
pub struct Link {
    /// The key of the entry. Without a key no entry is made.
    pub key: Option<Text>,
    /// The file's path. One without a leading `/` is resolved against the base folder.
    pub target: Text,
    /// The entry's time, in milliseconds since 1970. Without a key it has no effect.
    pub moment: u128,
    /// What the target must match, and what its entry says. A size has no effect: the target's own size is asked for instead.
    pub options: Options,
}

/// Adds an entry to the index. Without an integrity it is a tombstone.
#[derive(Debug, Drop)]
pub struct Insert {
    /// The key of the entry.
    pub key: Text,
    /// The entry's time, in milliseconds since 1970.
    pub moment: u128,
    /// The size and the integrity are recorded in the entry; without a size it records 0. The algorithm has no effect.
    pub options: Options,
}

/// Adds a tombstone to the index.
#[derive(Clone, Debug, Drop)]
pub struct Delete {
    /// The key that is deleted.
    pub key: Text,
    /// The tombstone's time, in milliseconds since 1970.
    pub moment: u128,
}

/// How a content is exported.
#[derive(Clone, Copy, Debug, PartialEq, Eq)]
pub enum How {
    /// As a copy of its bytes, which overwrites a file that is already there.
    Copy,
    /// As a file that shares its storage, at a path that must be free. Real folders answer `Unsupported`.
    Reflink,
    /// As one more name of its file, at a path that must be free. Whoever then writes to that file damages the cache.
    HardLink,
}

/// What names the content of an export.
#[derive(Clone, Debug, Drop)]
pub enum Source {
    /// The key whose lookup finds it.
    Key(Text),
    /// Its integrity.
    Hash(Integrity),
}

/// Exports a content to a second place, outside the cache.
#[derive(Clone, Debug, Drop)]
pub struct Export {
    /// Whether it is copied or linked.
    pub how: How,
    /// Whether the content is read and verified first.
    pub checked: bool,
    /// The path that it is exported to.
    pub to: Text,
}

/// A call on a cache.
#[derive(Debug, Drop)]
pub enum Command {
    /// Stores bytes, with a key or without one.
    Put(Put),
    /// Links to a file, with a key or without one.
    Link(Link),
    /// Adds an entry to the index.
    Insert(Insert),
    /// Adds a tombstone to the index. The content stays.
    Delete(Delete),
    /// The entry that a lookup of the key finds, whether or not its content is there.
    Find(Text),
    /// The bytes that a key was last put with.
    Get(Text),
    /// The bytes of the content with this integrity.
    GetHash(Integrity),
    /// Whether the content with this integrity is there.
    Exists(Integrity),
    /// The entries of all keys.
    Ls,
    /// Copies or links a content to a place outside the cache.
    Export(Source, Export),
    /// Removes the content with this integrity. Entries stay.
    RemoveHash(Integrity),
    /// Removes the content that a key's lookup finds, and the key's bucket.
    RemoveFully(Text),
    /// Removes everything in the cache folder.
    Clear,
}

/// A copy of a text that may be absent.
fn copy_text(text: &Option<Text>) -> Result<Option<Text>, AllocError>
    ensures { IfOk result (λ t. t ≡ text.now) }
{
    match text {
        Some(text) => Ok(Some(text.clone()?)),
        None => Ok(None),
    }
}

/// A copy of an integrity that may be absent.
fn copy_integrity(integrity: &Option<Integrity>) -> Result<Option<Integrity>, AllocError>
    ensures { IfOk result (λ i. i ≡ integrity.now) }
{
    match integrity {
        Some(integrity) => Ok(Some(integrity.clone()?)),
        None => Ok(None),
    }
}

/// One more owner of bytes that may be absent.
fn share_bytes(bytes: &Option<Bytes>) -> Result<Option<Bytes>, AllocError>
    ensures { IfOk result (λ b. b ≡ bytes.now) }
{
    match bytes {
        Some(bytes) => Ok(Some(bytes.share()?)),
        None => Ok(None),
    }
}

impl Options {
    /// Options that specify only the algorithm.
    pub fn blank(algorithm: Algorithm) -> Options
        ensures { result ≡ blank algorithm }
    {
        Options {
            algorithm,
            size: None,
            integrity: None,
            metadata: Json::new(Value::Null),
            raw_metadata: None,
            durable: false,
        }
    }

    /// A copy that shares the bytes of the original.
    pub fn copy(&self) -> Result<Options, AllocError>
        ensures { IfOk result (λ options. options ≡ self.now) }
    {
        Ok(Options {
            algorithm: self.algorithm,
            size: self.size,
            integrity: copy_integrity(&self.integrity)?,
            metadata: self.metadata.clone()?,
            raw_metadata: share_bytes(&self.raw_metadata)?,
            durable: self.durable,
        })
    }

    /// The same options with this size, in bytes.
    pub fn with_size(self, size: usize) -> Options
        ensures { result ≡ record self { size = Some size } }
    {
        Options {
            size: Some(size),
            ..self
        }
    }
}

impl Put {
    /// A copy that shares the bytes of the original.
    pub fn copy(&self) -> Result<Put, AllocError>
        ensures { IfOk result (λ put. put ≡ self.now) }
    {
        Ok(Put {
            key: copy_text(&self.key)?,
            data: self.data.share()?,
            moment: self.moment,
            options: self.options.copy()?,
        })
    }
}

impl Link {
    /// A copy that shares the bytes of the original.
    pub fn copy(&self) -> Result<Link, AllocError>
        ensures { IfOk result (λ link. link ≡ self.now) }
    {
        Ok(Link {
            key: copy_text(&self.key)?,
            target: self.target.clone()?,
            moment: self.moment,
            options: self.options.copy()?,
        })
    }
}

impl Insert {
    /// A copy that shares the bytes of the original.
    pub fn copy(&self) -> Result<Insert, AllocError>
        ensures { IfOk result (λ insert. insert ≡ self.now) }
    {
        Ok(Insert {
            key: self.key.clone()?,
            moment: self.moment,
            options: self.options.copy()?,
        })
    }
}

impl Command {
    /// A copy that shares the bytes of the original.
    pub fn copy(&self) -> Result<Command, AllocError>
        ensures { IfOk result (λ command. command ≡ self.now) }
    {
        match self {
            Command::Put(put) => Ok(Command::Put(put.copy()?)),
            Command::Link(link) => Ok(Command::Link(link.copy()?)),
            Command::Insert(insert) => Ok(Command::Insert(insert.copy()?)),
            Command::Delete(delete) => Ok(Command::Delete(delete.clone()?)),
            Command::Find(key) => Ok(Command::Find(key.clone()?)),
            Command::Get(key) => Ok(Command::Get(key.clone()?)),
            Command::GetHash(integrity) => Ok(Command::GetHash(integrity.clone()?)),
            Command::Exists(integrity) => Ok(Command::Exists(integrity.clone()?)),
            Command::Ls => Ok(Command::Ls),
            Command::Export(source, export) => {
                let source = source.clone()?;
                Ok(Command::Export(source, export.clone()?))
            }
            Command::RemoveHash(integrity) => Ok(Command::RemoveHash(integrity.clone()?)),
            Command::RemoveFully(key) => Ok(Command::RemoveFully(key.clone()?)),
            Command::Clear => Ok(Command::Clear),
        }
    }
}
