//! Bytes that are read from the cache, or fetched from elsewhere and stored in it.
ghost use Rattle.cacache_sync.specs.Layers.{GetsOrPuts, MayLack, PutsBytes};

use crate::damage::lack_of;
use crate::put::bytes::write_sync;
use crate::reading::read_sync;
use cacache_core::errors::Result;
use cacache_store::env::{Clock, Env, Names};
use cacache_store::store::Store;

/// Stores the bytes under the key, and gives them back.
fn put_bytes<S: Store, C: Clock, N: Names>(
    env: &mut Env<S, C, N>,
    cache: &str,
    key: &str,
    bytes: Vec<u8>,
) -> Result<Vec<u8>>
    ensures { PutsBytes S.log cache.now C.given N.given key.now env.old env.new bytes result }
{
    match write_sync(env, cache, key, &bytes) {
        Ok(_integrity) => Ok(bytes),
        Err(error) => Err(error),
    }
}

/// The bytes of the key, as `read_sync` gives them. If the cache lacks them, `fetch` gives them, and they are stored under
/// the key as by `write_sync`.
///
/// The cache lacks them if the lookup finds no entry, if the content isn't there, or if the content doesn't meet its
/// integrity. `fetch` is called only then, once, before any change. Nothing is removed: fetched bytes of the same integrity
/// take the place of a damaged content in one move. Fetched bytes of another integrity lie at their own address; the
/// damaged content stays where it is, and the key leads away from it. Two callers at once may both fetch; then the bytes
/// of the later one count.
///
/// An error of the read is handed on if it says anything else: `IoError` says which step failed. So is each error of
/// `fetch`. Nothing changed in both cases. After that `IoError` says that the bytes weren't stored, as from `write_sync`.
/// `OutOfMemory` may come at any time.
pub fn get_or_put_sync<S: Store, C: Clock, N: Names, F: FnOnce() -> Result<Vec<u8>>>(
    env: &mut Env<S, C, N>,
    cache: &str,
    key: &str,
    fetch: F,
) -> Result<Vec<u8>>
    requires { MayLack S.log cache.now key.now env.old → F.pre fetch }
    ensures gets { GetsOrPuts S.log cache.now C.given N.given key.now (F.post fetch)
        env.old env.new result }
{
    match read_sync(env, cache, key) {
        Ok(bytes) => return Ok(bytes),
        Err(error) => lack_of(error)?,
    }
    put_bytes(env, cache, key, fetch()?)
}
