//! Entries of the index with the bytes that they add on the disk.
ghost use Rattle.std.specs.Prelude.{◌≡◌, List, ◌∷◌, IfOk, IfErr, map};
ghost use Rattle.cacache_entry.specs.View.{found_view};
ghost use Rattle.cacache_keep.specs.{Limits.{Weight, entries_in, weight_of}, Planning.{HidesSize}, Weighing.{HasPaths, NotesPath, StopsWeighing, Weighs, WeighsBeside}};

use crate::planning::size_of;
use cacache_core::errors::Result;
use cacache_core::text::Text;
use cacache_entry::Metadata;
use cacache_jobs::content_path;
use cacache_store::store::Store;
use std::alloc::{AllocError, Global};
use std::collections::BTreeMap;

/// An entry, and how many bytes it adds to newer ones: those of its content, or none if a newer entry has that.
#[derive(Drop)]
pub(crate) struct Weighed {
    pub(crate) entry: Metadata,
    pub(crate) bytes: u64,
}

/// Adds the path to these, and says whether it is new there.
fn note(seen: &mut BTreeMap<Text, ()>, path: Text) -> std::result::Result<bool, AllocError>
    ensures { IfOk result (λ fresh. NotesPath path fresh seen.old seen.new) }
{
    let old = seen.insert(path, ())?;
    Ok(old.is_none())
}

/// How many bytes the entry adds to newer ones, the paths of whose contents were seen.
fn weight<S: Store>(
    alloc: Global,
    store: &mut S,
    cache: &str,
    seen: &mut BTreeMap<Text, ()>,
    entry: &Metadata,
) -> Result<u64>
    ensures weighs { IfOk result (λ bytes. (newer : List Weight) → HasPaths cache.now newer seen.old
        → WeighsBeside cache.now newer (found_view entry.now, bytes)
        (S.log store.old) (S.log store.new)
        × HasPaths cache.now ((found_view entry.now, bytes) ∷ newer) seen.new) }
    ensures stops { IfErr result (λ e. HidesSize cache.now (found_view entry.now).integrity e
        (S.log store.old) (S.log store.new)) }
{
    let path = content_path(alloc, cache, &entry.integrity)?;
    let fresh = note(seen, path)?;
    if !fresh {
        return Ok(0);
    }
    size_of(alloc, store, cache, &entry.integrity)
}

/// Weighs entries, which come with the oldest first. The newest is asked for the size of its content first.
pub(crate) fn weigh<S: Store>(
    alloc: Global,
    store: &mut S,
    cache: &str,
    entries: Vec<Metadata>,
) -> Result<Vec<Weighed>>
    ensures each { IfOk result (λ all. entries_in (map weight_of all.items)
        ≡ map found_view entries.items) }
    ensures weighs { IfOk result (λ all. Weighs cache.now (map weight_of all.items)
        (S.log store.old) (S.log store.new)) }
    ensures stops { IfErr result (λ e. StopsWeighing cache.now (map found_view entries.items) e
        (S.log store.old) (S.log store.new)) }
{
    let mut rest = entries;
    let mut seen = BTreeMap::new(alloc);
    let mut weighed = Vec::new(alloc);
    while let Some(entry) = rest.pop() {
        let bytes = weight(alloc, store, cache, &mut seen, &entry)?;
        weighed.push(Weighed { entry, bytes })?;
    }
    weighed.reverse();
    Ok(weighed)
}
