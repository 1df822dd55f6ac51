//! After calls that copy a content out of the cache, or link a file into it.
ghost use Rattle.std.specs.Prelude.{Bool};
ghost use Rattle.cacache_calls.specs.declared.command.{How.{How}, Source.{Source}};
ghost use Rattle.cacache_laws.specs.results.{Exports.{CopyMeans, SharingMeans}, Links.{LinkMeans, ContentLinkMeans}};

use cacache_core::errors::Result;
use cacache_core::integrity::Integrity;
use cacache_disk::memory::MemStore;
use cacache_store::env::{Clock, Env, Names};

/// After a copy to a path apart from the cache, of what a key or an integrity names, verified first or not: the bytes
/// are where the path leads, and the count is theirs, or the error is excused. All that was known stays.
pub fn after_copy<C: Clock, N: Names>(
    env: &Env<MemStore, C, N>,
    cache: &str,
    to: &str,
    copied: &Result<u64>,
)
    ensures { (source : Source) (checked : Bool)
        → CopyMeans cache.now source checked to.now copied.now env.now }
{
    let _log = env.store.log();
}

/// After a reflink or a hard link to a path apart from the cache, of what a key or an integrity names, verified first or
/// not: the bytes are where the path leads, or the error is excused. All that was known stays.
pub fn after_share<C: Clock, N: Names>(
    env: &Env<MemStore, C, N>,
    cache: &str,
    to: &str,
    shared: &Result<()>,
)
    ensures { (source : Source) (how : How) (checked : Bool)
        → SharingMeans cache.now source how checked to.now shared.now env.now }
{
    let _log = env.store.log();
}

/// After `link_to_sync` to a file apart from the cache: the key leads to the integrity of the bytes that the file
/// shows, and the link lies under it unless something lay there. Other keys lead where they led, and all bytes stay
/// except those at that address.
pub fn after_link<C: Clock, N: Names>(
    env: &Env<MemStore, C, N>,
    cache: &str,
    key: &str,
    target: &str,
    linked: &Result<Integrity>,
)
    ensures { LinkMeans C.given cache.now key.now target.now linked.now env.now }
{
    let _log = env.store.log();
}

/// After `link_to_hash_sync` to a file apart from the cache: the link lies under the integrity of the bytes that the file
/// shows, unless something lay there. All keys lead where they led, and all bytes stay except those at that address.
pub fn after_link_hash<C: Clock, N: Names>(
    env: &Env<MemStore, C, N>,
    cache: &str,
    target: &str,
    linked: &Result<Integrity>,
)
    ensures { ContentLinkMeans cache.now target.now linked.now env.now }
{
    let _log = env.store.log();
}
