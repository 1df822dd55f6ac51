//! What a touch leaves, on a store in memory.
ghost use Rattle.cacache_keep.specs.Touched.{TouchMeans};

use cacache_core::errors::Result;
use cacache_disk::memory::MemStore;
use cacache_store::env::{Clock, Env, Names};

/// After `touch` of a key that led to an entry: it leads to that entry with the clock's moment, and so to the same bytes. If
/// it led to nothing, the store's tree is as it was. Whatever was answered, a cache is left, and all else stays.
pub fn after_touch<C: Clock, N: Names>(
    env: &Env<MemStore, C, N>,
    cache: &str,
    key: &str,
    touched: &Result<bool>,
)
    ensures touches { TouchMeans C.given cache.now key.now touched.now env.now }
{
    let _log = env.store.log();
}
