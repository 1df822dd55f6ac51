//! After calls that are made of others.
ghost use Rattle.std.specs.Prelude.{ℕ, List};
ghost use Rattle.cacache_core.specs.{declared.integrity.digest.Hash.{Hash}, Integrity.{IsIntegrity}};
ghost use Rattle.cacache_laws.specs.results.Composed.{ExportMeans, GettingMeans, LayeredHashReads, LayeredLookups, LayeredQuestions, LayeredReads};

use cacache_core::errors::Result;
use cacache_disk::memory::MemStore;
use cacache_store::env::{Clock, Env, Names};
use cacache_sync::Exported;

/// After `export_sync` and `export_hash_sync`, in any mode, to a path apart from the cache: the bytes are where the path
/// leads, and the count of a copy is theirs, or the error is excused. If something was at the path, the error says so, and
/// nothing changed. All that was known stays. If the cache's path names a folder, an error left the whole tree, unless
/// memory was refused.
pub fn after_export<C: Clock, N: Names>(
    env: &Env<MemStore, C, N>,
    cache: &str,
    to: &str,
    exported: &Result<Exported>,
)
    ensures { ExportMeans cache.now to.now exported.now env.now }
{
    let _log = env.store.log();
}

/// After the methods of `Layered`: the answer is what the upper cache gives, as after the call of that name; or the upper
/// one lacks this, and it is what the lower one gives on the same tree.
pub fn layered_laws<C: Clock, N: Names>(env: &Env<MemStore, C, N>)
    ensures reads { (key : List ℕ) → LayeredReads key env.now }
    ensures reads_hash { (i : List Hash) → IsIntegrity i → LayeredHashReads i env.now }
    ensures finds { (key : List ℕ) → LayeredLookups key env.now }
    ensures asks { (i : List Hash) → IsIntegrity i → LayeredQuestions i env.now }
{
    let _log = env.store.log();
}

/// After `get_or_put_sync` with a closure of this type: the key leads to the bytes that were given, which it led to before,
/// or which were fetched. So a damaged content is mended. Whatever is answered, other keys lead where they led, and what
/// met its integrity at its address still does.
pub fn after_get_or_put<C: Clock, N: Names, F: FnOnce() -> Result<Vec<u8>>>(
    env: &Env<MemStore, C, N>,
    cache: &str,
    key: &str,
    got: &Result<Vec<u8>>,
)
    ensures { (fetch : F) → GettingMeans C.given N.given cache.now key.now got.now env.now
        (F.post fetch) }
{
    let _log = env.store.log();
}
