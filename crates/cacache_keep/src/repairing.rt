//! The call that repairs a cache.
ghost use Rattle.std.specs.Prelude.{◌≡◌, IfOk, IfErr};
ghost use Rattle.cacache_jobs.specs.JobStates.{site_of};
ghost use Rattle.cacache_keep.specs.{declared.checking.OddLines.TheVariants.{Refuse}, Repairing.{StopsRepairing, StopsRepairingFrom}, Told.{RepairsAs, RepairsFromAs}};

use crate::asking::dangling_of;
use crate::burying::bury_all;
use crate::checking::{OddLines, check};
use crate::index::{Index, read_index};
use crate::reading::{Read, read_each};
use crate::removing::remove_each;
use cacache_calls::Found;
use cacache_core::errors::Result;
use cacache_core::integrity::Integrity;
use cacache_core::keeping::let_go;
use cacache_entry::Metadata;
use cacache_store::env::{Clock, Env, Names};
use cacache_store::store::Store;
use cacache_walks::{Contents, list};

/// What a repair did.
#[derive(Debug, Drop)]
pub struct Repaired {
    /// The addresses of the damaged contents, which are removed, in the order of the listing.
    pub damaged: Vec<Integrity>,
    /// The entries whose content isn't there, whose keys got tombstones.
    pub dangling: Vec<Metadata>,
}

/// Repairs a cache whose index has these entries.
fn repair_from<S: Store, C: Clock, N: Names>(
    env: &mut Env<S, C, N>,
    cache: &str,
    entries: Vec<Found>,
) -> Result<Repaired>
    ensures repairs { IfOk result (λ r. RepairsFromAs (site_of cache.now env.old.base 0)
        entries.items r (S.log env.old.store) (S.log env.new.store)) }
    ensures stops { IfErr result (λ e. StopsRepairingFrom (site_of cache.now env.old.base 0)
        entries.items e (S.log env.old.store) (S.log env.new.store)) }
    ensures names { env.new.names ≡ env.old.names }
    ensures base { env.new.base ≡ env.old.base }
{
    let Contents { addresses, strange } = list(env, cache)?;
    let_go(strange);
    let Read {
        good: _,
        good_bytes: _,
        damaged,
        damaged_bytes: _,
    } = read_each(env.alloc, &mut env.store, cache, addresses)?;
    remove_each(env, cache, damaged.as_slice())?;
    let dangling = dangling_of(env, cache, entries)?;
    let dangling = bury_all(env, cache, dangling)?;
    Ok(Repaired { damaged, dangling })
}

/// Repairs a cache as `repair_with` does, and leaves the walk open.
fn repair_open<S: Store, C: Clock, N: Names>(
    env: &mut Env<S, C, N>,
    cache: &str,
    odd: OddLines,
) -> Result<Repaired>
    ensures repairs { IfOk result (λ r. RepairsAs odd (site_of cache.now env.old.base 0) r
        (S.log env.old.store) (S.log env.new.store)) }
    ensures stops { IfErr result (λ e. StopsRepairing odd (site_of cache.now env.old.base 0) e
        (S.log env.old.store) (S.log env.new.store)) }
    ensures names { env.new.names ≡ env.old.names }
    ensures base { env.new.base ≡ env.old.base }
{
    let index = read_index(env.alloc, &mut env.store, cache)?;
    check(env.alloc, odd, index.odd.as_slice())?;
    let Index { entries, odd: _ } = index;
    repair_from(env, cache, entries)
}

/// Repairs a cache as `repair` does, with the choice of what to do about odd lines in its index. With
/// `OddLines::Ignore` a key may get a tombstone that hides such a line from another reader.
///
/// Errors are those of `repair`, with `OddLines::Ignore` without the one about odd lines.
pub fn repair_with<S: Store, C: Clock, N: Names>(
    env: &mut Env<S, C, N>,
    cache: &str,
    odd: OddLines,
) -> Result<Repaired>
    ensures repairs { IfOk result (λ r. RepairsAs odd (site_of cache.now env.old.base 0) r
        (S.log env.old.store) (S.log env.new.store)) }
    ensures stops { IfErr result (λ e. StopsRepairing odd (site_of cache.now env.old.base 0) e
        (S.log env.old.store) (S.log env.new.store)) }
    ensures names { env.new.names ≡ env.old.names }
    ensures base { env.new.base ≡ env.old.base }
{
    env.store.begin_walks();
    let answer = repair_open(env, cache, odd);
    env.store.end_walks();
    answer
}

/// Removes each damaged content of a cache, and adds a tombstone for each key that leads to an entry whose content is
/// missing then. A content is damaged as `verify` finds it. If one is a link, the link is removed and its target
/// stays. Whatever else lies among the contents stays, and so does an entry that its key's lookup doesn't find, such
/// as one in another key's bucket.
///
/// A question for a content that fails is answered like one for a content that isn't there. So if an entry
/// dangles, the contents are walked through once more, and a key gets a tombstone only if that walk doesn't
/// meet its content. If it does, or if a link or a file hides the place of the content, the call ends with an
/// `IoError` of `Device`, which names the content.
///
/// Repair a cache while nobody writes to it: a content is stored before its entry.
///
/// A line of the index with a right digest that this crate can't read is odd: another reader may read it, and a tombstone
/// after it would hide it. So a cache with such a line isn't repaired: the index is read before all else, each bucket
/// once, and the call ends with an `IoError` of `Unsupported`, which names the first such bucket. `repair_with` can go on.
///
/// Errors are the first that `ls` gives, as for a link in the index to a folder, then that one, those of `verify` about
/// contents, of a removal, of the second walk and of a tombstone, and the one about a content that may be there. Contents
/// before the error are removed then, and keys before it have tombstones. `OutOfMemory` may come at any time.
pub fn repair<S: Store, C: Clock, N: Names>(env: &mut Env<S, C, N>, cache: &str) -> Result<Repaired>
    ensures repairs { IfOk result (λ r. RepairsAs Refuse (site_of cache.now env.old.base 0) r
        (S.log env.old.store) (S.log env.new.store)) }
    ensures stops { IfErr result (λ e. StopsRepairing Refuse (site_of cache.now env.old.base 0) e
        (S.log env.old.store) (S.log env.new.store)) }
    ensures names { env.new.names ≡ env.old.names }
    ensures base { env.new.base ≡ env.old.base }
{
    repair_with(env, cache, OddLines::Refuse)
}
