//! After listings.
ghost use Rattle.cacache_laws.specs.results.Lists.{ListingMeans};

use cacache_calls::Reply;
use cacache_disk::memory::MemStore;
use cacache_store::env::{Clock, Env, Names};

/// After `call` of a listing: if no item is an error, its items are the entries that keys lead to, all of them. All
/// that was known stays.
pub fn after_list<C: Clock, N: Names>(env: &Env<MemStore, C, N>, cache: &str, listed: &Reply)
    ensures { ListingMeans cache.now listed.now env.now }
{
    let _log = env.store.log();
}
