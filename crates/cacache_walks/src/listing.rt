//! The call that lists the index.
ghost use Rattle.std.specs.{Prelude.{◌≡◌, [], IfOk, IfErr}, Borrow.{sem}};
ghost use Rattle.cacache_core.specs.declared.errors.Error.TheVariants.{OutOfMemory};
ghost use Rattle.cacache_walks.specs.{Listing.{EnvRests}, Iterating.{Gave, IsListing}};

use crate::iterator::Ls;
use cacache_core::errors::Result;
use cacache_store::env::{Clock, Env, Names};
use cacache_store::store::Store;

/// The entries of the index, one after another: for each bucket each of its keys once, if the key's
/// lookup there finds an entry. Their order is unspecified. No step is made before the first item
/// is requested. It isn't checked whether their contents exist.
///
/// ```
/// cacache::write_sync(&mut env, "my-cache", "key", b"my data")?;
/// for entry in cacache::list_sync(&mut env, "my-cache")? {
///     let entry = entry?;
///     write!(text, "{}: {} bytes", entry.key, entry.size)?; // key: 7 bytes
/// }
/// ```
///
/// `OutOfMemory` is the only error. An item `IoError` says which folder or bucket couldn't be read
/// or, with `TooDeep`, that folders are more than sixteen levels below the index. The listing then
/// goes on. If the folder of the index or of the cache doesn't exist, an `IoError` with `NotFound`
/// is the only item. Past 2^63 names or items, an `IoError` with `TooDeep` is the last item. An
/// item `OutOfMemory` is also the last one. Nothing changes. The clock and the numbers aren't used.
pub fn ls<'a, S: Store, C: Clock, N: Names>(
    env: &'a mut Env<S, C, N>,
    cache: &str,
) -> Result<Ls<'a, S, C, N>>
    ensures* rests { sem 𝓛 (EnvRests S.row C.row N.row env.entry result) }
    ensures lends { IfOk result (λ ls. ls.env.ghost_name ≡ env.entry.ghost_name) }
    ensures before { IfOk result (λ ls. ls.env.now ≡ env.old) }
    ensures gave { IfOk result (λ ls. Gave S.log cache.now (S.log env.old.store) ls []) }
    ensures listing { IfOk result (λ ls. IsListing S.log ls) }
    ensures memory { IfErr result (λ e. e ≡ OutOfMemory) }
{
    Ls::new(env, cache)
}
