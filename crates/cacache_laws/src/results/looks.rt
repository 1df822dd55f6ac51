//! After calls that only look.
ghost use Rattle.cacache_laws.specs.results.Reads.{KeyReadMeans, ContentReadMeans, LookupMeans, QuestionMeans};

use cacache_core::errors::Result;
use cacache_core::integrity::Integrity;
use cacache_disk::memory::MemStore;
use cacache_entry::Metadata;
use cacache_store::env::{Clock, Env, Names};

/// After `read_sync`: the bytes that the key leads to were read, or `EntryNotFound` says that it leads to nothing.
/// Whatever lies there, only whole bytes were read; any other error is excused. All that was known stays.
pub fn after_read<C: Clock, N: Names>(
    env: &Env<MemStore, C, N>,
    cache: &str,
    key: &str,
    read: &Result<Vec<u8>>,
)
    ensures { KeyReadMeans cache.now key.now read.now env.now }
{
    let _log = env.store.log();
}

/// After `read_hash_sync`: the bytes that lie under the integrity were read. Whatever lies there, only whole bytes
/// were read; any other error is excused. All that was known stays.
pub fn after_read_hash<C: Clock, N: Names>(
    env: &Env<MemStore, C, N>,
    cache: &str,
    sri: &Integrity,
    read: &Result<Vec<u8>>,
)
    ensures { ContentReadMeans cache.now sri.now read.now env.now }
{
    let _address = sri.address();
    let _log = env.store.log();
}

/// After `metadata_sync`: the entry that the key leads to was found, if any. All that was known stays.
pub fn after_find<C: Clock, N: Names>(
    env: &Env<MemStore, C, N>,
    cache: &str,
    key: &str,
    found: &Result<Option<Metadata>>,
)
    ensures { LookupMeans cache.now key.now found.now env.now }
{
    let _log = env.store.log();
}

/// After `exists_sync`: a no about a content that is there says that a step failed. All that was known stays.
pub fn after_exists<C: Clock, N: Names>(
    env: &Env<MemStore, C, N>,
    cache: &str,
    sri: &Integrity,
    there: &Result<bool>,
)
    ensures { QuestionMeans cache.now sri.now there.now env.now }
{
    let _address = sri.address();
    let _log = env.store.log();
}
