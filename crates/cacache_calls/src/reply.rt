//! What a call answers.
ghost use Rattle.std.specs.Prelude.{◌≡◌, IfOk};
ghost use Rattle.cacache_entry.specs.View.{found_view};

use cacache_core::bytes::Bytes;
use cacache_core::errors::{Error, IntegrityFault};
use cacache_core::integrity::Integrity;
use cacache_entry::Metadata;
use std::alloc::{AllocError, Global};
use std::marker::Model;

/// What a lookup found. In contracts it is the entry with its integrity.
#[derive(Debug)]
pub struct Found {
    metadata: Metadata,
}

// Written out for the same reason as the `Drop` of a JSON value.
impl Drop for Found {
    fn drop(self) {
        let Found {
            metadata: _metadata,
        } = self;
    }
}

impl Model for Found {
    ghost use Rattle.cacache_entry.specs.Bucket.{Found as FoundEntry};
    ghost use Rattle.cacache_entry.specs.View.{found_view};
    ghost use Rattle.std.specs.Coded.{codes};
    ghost use Rattle.cacache_calls.specs.JsonCode.{data_code};

    ghost Value = { FoundEntry };

    ghost coded = { Prim.hlevel (codes, data_code) };

    ghost view = { λ f. found_view f.metadata };
}

impl Found {
    /// Wraps these metadata. Allocates no memory.
    pub fn new(metadata: Metadata) -> Found
        ensures { result ≡ found_view metadata }
    {
        Found { metadata }
    }

    /// A copy.
    pub fn copy(&self) -> Result<Found, AllocError>
        ensures { IfOk result (λ found. found ≡ self.now) }
    {
        let metadata = &self.metadata;
        Ok(Found {
            metadata: Metadata {
                key: metadata.key.clone()?,
                integrity: metadata.integrity.clone()?,
                time: metadata.time,
                size: metadata.size,
                metadata: metadata.metadata.clone()?,
                raw_metadata: metadata.raw_metadata.clone()?,
            },
        })
    }

    /// The metadata inside.
    pub fn as_metadata(&self) -> &Metadata
        ensures { found_view result.now ≡ self.now }
    {
        &self.metadata
    }

    /// Moves the metadata out. Allocates no memory.
    pub fn into_metadata(self) -> Metadata
        ensures { found_view result ≡ self }
    {
        let Found { metadata } = self;
        metadata
    }
}

/// The items of a listing: each is an entry, or the error why one couldn't be read. In contracts this is the list.
#[derive(Debug, Drop)]
pub struct Items {
    items: Vec<Result<Found, Error>>,
}

impl Model for Items {
    ghost use Rattle.std.specs.Prelude.{List, Result};
    ghost use Rattle.cacache_core.specs.declared.errors.Error.{Error};
    ghost use Rattle.cacache_entry.specs.Bucket.{Found as FoundEntry};
    ghost use Rattle.std.specs.Coded.{codes};
    ghost use Rattle.cacache_calls.specs.JsonCode.{data_code};

    ghost Value = { List (Result FoundEntry Error) };

    ghost coded = { Prim.hlevel (codes, data_code) };

    ghost view = { λ l. l.items.items };
}

impl Items {
    /// Wraps these items. Allocates no memory.
    pub fn new(items: Vec<Result<Found, Error>>) -> Items
        ensures { result ≡ items.items }
    {
        Items { items }
    }

    /// A copy of the list.
    pub fn copy(&self, alloc: Global) -> Result<Items, AllocError>
        ensures { IfOk result (λ items. items ≡ self.now) }
    {
        let mut items = Vec::with_capacity(alloc, self.items.len())?;
        for item in &self.items {
            items.push(copy_item(item)?)?;
        }
        Ok(Items { items })
    }

    /// The items as a slice.
    pub fn as_slice(&self) -> &[Result<Found, Error>]
        ensures { result.now ≡ self.now }
    {
        self.items.as_slice()
    }

    /// Moves the items out as a vector. Allocates no memory.
    pub fn into_vec(self) -> Vec<Result<Found, Error>>
        ensures { result.items ≡ self }
    {
        let Items { items } = self;
        items
    }
}

/// What a call answers.
#[derive(Debug, Drop)]
pub enum Reply {
    /// The content or the entry was stored, and has this integrity.
    Stored(Integrity),
    /// These bytes were read, and match the integrity that they were read by.
    Read(Bytes),
    /// What the lookup of a key found.
    LookedUp(Option<Found>),
    /// Whether the content is there.
    Exists(bool),
    /// How many bytes were copied.
    Copied(u64),
    /// The entries that were listed.
    Listed(Items),
    /// The call is done, and returns nothing.
    Done,
    /// Why the call failed.
    Refused(Error),
}

/// A copy of the reason why an integrity was refused.
fn copy_fault(fault: &IntegrityFault) -> Result<IntegrityFault, AllocError>
    ensures { IfOk result (λ copy. copy ≡ fault.now) }
{
    match fault {
        IntegrityFault::BadText => Ok(IntegrityFault::BadText),
        IntegrityFault::ShortDigest => Ok(IntegrityFault::ShortDigest),
        IntegrityFault::Check(wanted, found) => {
            let wanted = wanted.clone()?;
            Ok(IntegrityFault::Check(wanted, found.clone()?))
        }
    }
}

/// A copy of an error.
fn copy_error(error: &Error) -> Result<Error, AllocError>
    ensures { IfOk result (λ copy. copy ≡ error.now) }
{
    match error {
        Error::EntryNotFound(cache, key) => {
            let cache = cache.clone()?;
            Ok(Error::EntryNotFound(cache, key.clone()?))
        }
        Error::SizeMismatch(wanted, actual) => Ok(Error::SizeMismatch(*wanted, *actual)),
        Error::IoError(fault, message) => Ok(Error::IoError(*fault, message.clone()?)),
        Error::SerdeError(cause, message) => Ok(Error::SerdeError(*cause, message.clone()?)),
        Error::IntegrityError(fault) => Ok(Error::IntegrityError(copy_fault(fault)?)),
        Error::OutOfMemory => Ok(Error::OutOfMemory),
    }
}

/// A copy of one item.
fn copy_item(item: &Result<Found, Error>) -> Result<Result<Found, Error>, AllocError>
    ensures { IfOk result (λ copy. copy ≡ item.now) }
{
    match item {
        Ok(found) => Ok(Ok(found.copy()?)),
        Err(error) => Ok(Err(copy_error(error)?)),
    }
}

/// A copy of what a lookup found, if anything.
fn copy_found(found: &Option<Found>) -> Result<Option<Found>, AllocError>
    ensures { IfOk result (λ copy. copy ≡ found.now) }
{
    match found {
        Some(found) => Ok(Some(found.copy()?)),
        None => Ok(None),
    }
}

impl Reply {
    /// A copy that shares the bytes of the original.
    pub fn copy(&self, alloc: Global) -> Result<Reply, AllocError>
        ensures { IfOk result (λ reply. reply ≡ self.now) }
    {
        match self {
            Reply::Stored(integrity) => Ok(Reply::Stored(integrity.clone()?)),
            Reply::Read(bytes) => Ok(Reply::Read(bytes.share()?)),
            Reply::LookedUp(found) => Ok(Reply::LookedUp(copy_found(found)?)),
            Reply::Exists(there) => Ok(Reply::Exists(*there)),
            Reply::Copied(count) => Ok(Reply::Copied(*count)),
            Reply::Listed(items) => Ok(Reply::Listed(items.copy(alloc)?)),
            Reply::Done => Ok(Reply::Done),
            Reply::Refused(error) => Ok(Reply::Refused(copy_error(error)?)),
        }
    }
}
