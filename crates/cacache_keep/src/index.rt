//! The entries of the index.
ghost use Rattle.std.specs.Prelude.{◌≡◌, ◌⊎◌, ℕ, List, true, false, IfOk, IfErr};
ghost use Rattle.cacache_core.specs.declared.errors.Error.TheVariants.{OutOfMemory};
ghost use Rattle.cacache_jobs.specs.JobStates.{site_of};
ghost use Rattle.cacache_keep.specs.{Calls.{AreEntries, HasNoIndex, IsIndexError, StopsIndex}, Checking.{ReadsIndex}};

use crate::walking::{Met, walk_index};
use cacache_calls::Found;
use cacache_core::errors::{Error, Fault, Result};
use cacache_core::keeping::let_go;
use cacache_core::text::Text;
use cacache_store::store::Store;
use std::alloc::Global;

/// The entries of all keys, and the paths of the buckets with odd lines, in the order of their reading.
#[derive(Drop)]
pub(crate) struct Index {
    pub(crate) entries: Vec<Found>,
    pub(crate) odd: Vec<Text>,
}

/// Whether the only item says that the folder of the index isn't there.
fn has_no_index(items: &[std::result::Result<Found, Error>]) -> bool
    ensures yes { result ≡ true → HasNoIndex items.now }
    ensures no { result ≡ false → HasNoIndex items.now → ⊥ }
{
    if items.len() != 1 {
        return false;
    }
    match &items[0] {
        Err(Error::IoError(fault, _)) => matches!(fault, Fault::NotFound),
        _ => false,
    }
}

/// The entries among the items of a listing, if no other item is there; otherwise the first error. There are none if the
/// folder of the index isn't there.
fn entries_of(alloc: Global, items: Vec<std::result::Result<Found, Error>>) -> Result<Vec<Found>>
    ensures ok { IfOk result (λ entries. AreEntries items.items entries.items) }
    ensures err { IfErr result (λ e. (e ≡ OutOfMemory) ⊎ IsIndexError items.items e) }
{
    let mut entries = Vec::new(alloc);
    if has_no_index(items.as_slice()) {
        let_go(items);
        return Ok(entries);
    }
    for item in items {
        entries.push(item?)?;
    }
    Ok(entries)
}

/// The entries of all keys, and the buckets with odd lines. Each bucket is read once. An index whose folder isn't there
/// has none. The first error among the items of the listing ends it.
pub(crate) fn read_index<S: Store>(alloc: Global, store: &mut S, cache: &str) -> Result<Index>
    ensures reads { IfOk result (λ index. (base : List ℕ) → ReadsIndex (site_of cache.now base 0)
        index.entries.items index.odd.items (S.log store.old) (S.log store.new)) }
    ensures stops { IfErr result (λ e. (base : List ℕ) → StopsIndex (site_of cache.now base 0) e
        (S.log store.old) (S.log store.new)) }
{
    let Met { items, odd } = walk_index(alloc, store, cache)?;
    let entries = entries_of(alloc, items)?;
    Ok(Index { entries, odd })
}
