//! The calls that drop the oldest entries of a cache, and say which these are.
ghost use Rattle.std.specs.{Prelude.{◌≡◌, ℕ, [], List, None, Option, false, IfOk, IfErr, map}, List.Sorted.{IsPermutation, IsSorted}};
ghost use Rattle.cacache_entry.specs.{Bucket.{Found as FoundEntry}, View.{found_view}};
ghost use Rattle.cacache_jobs.specs.{Environment.{KeepsRest}, JobStates.{site_of}};
ghost use Rattle.cacache_keep.specs.{declared.checking.OddLines.TheVariants.{Refuse}, Collecting.{told_by}, Grace.{LimitedFirst}, Limits.{age_cmp, entries_in, weight_of}, Pruning.{PlansPruneAs, PrunesAs, StopsPrunePlan, StopsPruning}, Weighing.{StopsWeighing, Weighs}};

use crate::checking::{OddLines, check};
use crate::collecting::{CollectOpts, Collection, collect_old};
use crate::confirming::confirm;
use crate::grace::limit_by;
use crate::index::{Index, read_index};
use crate::limits::{Choice, Limits, choose, sort};
use crate::parting::{Parted, part};
use crate::weighing::{Weighed, weigh};
use cacache_calls::Found;
use cacache_core::errors::Result;
use cacache_core::keeping::let_go;
use cacache_core::text::Text;
use cacache_entry::Metadata;
use cacache_store::env::{Clock, Env, Names};
use cacache_store::store::{Stamps, Store};
use std::alloc::{AllocError, Global};

/// What a pruning would do.
#[derive(Debug, Drop)]
pub struct PrunePlan {
    /// The entries whose keys would get tombstones, the oldest first.
    pub dropped: Vec<Metadata>,
    /// The others, the oldest first.
    pub kept: Vec<Metadata>,
    /// How many bytes the contents of all entries have on the disk, each once; 2^64 - 1 if there are more. A link has
    /// those of its target. What isn't there has none.
    pub bytes_before: u64,
    /// How many bytes those of the entries that are kept have; 2^64 - 1 if there are more.
    pub bytes_after: u64,
    /// The paths of the buckets with odd lines, in the order in which the index is read. If there is one, `prune` ends
    /// with an error that names the first.
    pub odd: Vec<Text>,
}

/// What a pruning did.
#[derive(Debug, Drop)]
pub struct Pruned {
    /// The entries whose keys are dropped, the oldest first.
    pub dropped: Vec<Metadata>,
    /// The entries whose keys couldn't be dropped, the oldest first. Each may have got its tombstone or not.
    pub left: Vec<Metadata>,
    /// How many bytes the contents of all entries had on the disk, each once; 2^64 - 1 if there were more.
    pub bytes_before: u64,
    /// How many bytes those of the entries that are kept have; 2^64 - 1 if there are more. Those that are left don't count.
    pub bytes_after: u64,
    /// What the collection after that did, or the error that ended it.
    pub collected: Result<Collection>,
}

/// The entries, out of what the index has.
fn metadata_of(alloc: Global, entries: Vec<Found>) -> std::result::Result<Vec<Metadata>, AllocError>
    ensures { IfOk result (λ all. map found_view all.items ≡ entries.items) }
{
    let mut all = Vec::new(alloc);
    for found in entries {
        all.push(found.into_metadata())?;
    }
    Ok(all)
}

/// Puts the entries of the index in order, the oldest first, and weighs them.
fn weigh_all<S: Store>(
    alloc: Global,
    store: &mut S,
    cache: &str,
    entries: Vec<Found>,
) -> Result<Vec<Weighed>>
    ensures each { IfOk result (λ all. IsPermutation entries.items
        (entries_in (map weight_of all.items))) }
    ensures order { IfOk result (λ all. IsSorted age_cmp (entries_in (map weight_of all.items))) }
    ensures weighs { IfOk result (λ all. Weighs cache.now (map weight_of all.items)
        (S.log store.old) (S.log store.new)) }
    ensures stops { IfErr result (λ e. (sorted : List FoundEntry) × IsPermutation entries.items sorted
        × StopsWeighing cache.now sorted e (S.log store.old) (S.log store.new)) }
{
    let mut all = metadata_of(alloc, entries)?;
    sort(&mut all);
    weigh(alloc, store, cache, all)
}

/// Plans a pruning as `plan_prune` does, and leaves the walk open.
fn plan_prune_open<S: Store, C: Clock, N: Names>(
    env: &mut Env<S, C, N>,
    cache: &str,
    limits: Limits,
) -> Result<PrunePlan>
    ensures plans { IfOk result (λ p. PlansPruneAs limits (site_of cache.now env.old.base 0) p
        (S.log env.old.store) (S.log env.new.store)) }
    ensures stops { IfErr result (λ e. StopsPrunePlan (site_of cache.now env.old.base 0) e
        (S.log env.old.store) (S.log env.new.store)) }
    ensures rest { KeepsRest env.old env.new }
{
    let Index { entries, odd } = read_index(env.alloc, &mut env.store, cache)?;
    let weighed = weigh_all(env.alloc, &mut env.store, cache, entries)?;
    let Choice {
        dropped,
        kept,
        bytes_before,
        bytes_after,
    } = choose(env.alloc, limits, weighed)?;
    Ok(PrunePlan {
        dropped,
        kept,
        bytes_before,
        bytes_after,
        odd,
    })
}

/// Tells what a `prune` with these limits would drop and keep, and how many bytes there are before and after it. It reads
/// the index as `collect` does, and asks each content that an entry has once for its size, as `plan` does. Nothing
/// changes.
///
/// Errors are the first that `ls` gives, as for a link in the index to a folder, and an `IoError` if a content didn't give
/// its size, such as a link to a folder. `OutOfMemory` may come at any time. An index whose folder isn't there has no
/// entries.
pub fn plan_prune<S: Store, C: Clock, N: Names>(
    env: &mut Env<S, C, N>,
    cache: &str,
    limits: Limits,
) -> Result<PrunePlan>
    ensures plans { IfOk result (λ p. PlansPruneAs limits (site_of cache.now env.old.base 0) p
        (S.log env.old.store) (S.log env.new.store)) }
    ensures stops { IfErr result (λ e. StopsPrunePlan (site_of cache.now env.old.base 0) e
        (S.log env.old.store) (S.log env.new.store)) }
    ensures clock { env.new.clock ≡ env.old.clock }
    ensures names { env.new.names ≡ env.old.names }
    ensures base { env.new.base ≡ env.old.base }
{
    let answer = plan_prune_open(env, cache, limits);
    env.store.end_walks();
    answer
}

/// Prunes a cache with these options, spares the contents that changed at the limit or later, and leaves the walk open.
fn prune_old<S: Stamps, C: Clock, N: Names>(
    env: &mut Env<S, C, N>,
    opts: CollectOpts<'_>,
    limit: Option<u64>,
    cache: &str,
    limits: Limits,
) -> Result<Pruned>
    ensures prunes { IfOk result (λ p. PrunesAs limits
        (told_by opts.entry.odd opts.entry.keep.now opts.entry.durable) limit
        (site_of cache.now env.old.base 0) p (S.log env.old.store) (S.log env.new.store)) }
    ensures stops { IfErr result (λ e. StopsPruning limits opts.entry.durable
        (site_of cache.now env.old.base 0) e (S.log env.old.store) (S.log env.new.store)) }
    ensures names { env.new.names ≡ env.old.names }
    ensures base { env.new.base ≡ env.old.base }
{
    let plan = plan_prune_open(env, cache, limits)?;
    check(env.alloc, OddLines::Refuse, plan.odd.as_slice())?;
    let PrunePlan {
        dropped,
        kept,
        bytes_before,
        bytes_after,
        odd: _,
    } = plan;
    let_go(kept);
    confirm(env, cache, dropped.as_slice())?;
    let Parted { dropped, left } = part(env, opts.durable, cache, dropped)?;
    let collected = collect_old(env, opts, limit, cache);
    Ok(Pruned {
        dropped,
        left,
        bytes_before,
        bytes_after,
        collected,
    })
}

impl CollectOpts<'_> {
    /// Drops the oldest entries of a cache, so that the others keep within the limits, and then collects it with these
    /// options: each content that neither an entry nor a further root names is removed, if its grace is over. Each
    /// entry's key gets a tombstone, the oldest first, so a lookup of the key finds nothing then.
    ///
    /// A tombstone that fails doesn't end the call, as on a full disk. If it failed with `Device`, `ShortAppend` or
    /// `WriteZero`, the key's bucket is read. It is removed if no line of it is odd or decides another key, and the key
    /// still leads to the entry there: that needs no room and gives some. `left` has each entry whose key couldn't be
    /// dropped, and the call goes on. The collection comes after all keys. If an error ends that one, this call is `Ok`, so
    /// that its caller learns which keys are dropped, and `collected` has the error.
    ///
    /// Bytes are counted on the disk, as `plan_prune` asks for them, and a content that several entries share counts
    /// once. A content that no entry leads to doesn't count.
    ///
    /// Before the first tombstone each of these keys is looked up. If a lookup doesn't find the very entry that would be
    /// dropped, nothing changes: the call ends with an `IoError` of `Unsupported`, which names the first such key. Such
    /// an entry lies in a copy of a bucket or in another key's bucket, and its tombstone could hide what the key leads to.
    ///
    /// Prune a cache while nobody writes to it: a key that is written again meanwhile may lose its new entry, and
    /// without a grace a content may be removed before its entry is stored. The grace counts from the time at which the
    /// call begins. If it is durable, tombstones and removals of buckets are synced before the first content is removed.
    ///
    /// A line of the index with a right digest that this crate can't read is odd: another reader may read it. A cache
    /// with such a line isn't pruned, whatever the options say of odd lines: the call ends with an `IoError` of
    /// `Unsupported`, which names the first such bucket, before it changes anything.
    ///
    /// Errors are those of `plan_prune`, these two, and those of a lookup. `OutOfMemory` may come at any time: the keys
    /// before it are dropped or left then.
    pub fn prune<S: Stamps, C: Clock, N: Names>(
        self,
        env: &mut Env<S, C, N>,
        cache: &str,
        limits: Limits,
    ) -> Result<Pruned>
        ensures prunes { IfOk result (λ p. (limit : Option ℕ)
            × LimitedFirst C.given self.entry.grace env.old.clock limit
            × PrunesAs limits (told_by Refuse self.entry.keep.now self.entry.durable) limit
            (site_of cache.now env.old.base 0) p (S.log env.old.store) (S.log env.new.store)) }
        ensures stops { IfErr result (λ e. StopsPruning limits self.entry.durable
            (site_of cache.now env.old.base 0) e (S.log env.old.store) (S.log env.new.store)) }
        ensures names { env.new.names ≡ env.old.names }
        ensures base { env.new.base ≡ env.old.base }
    {
        let limit = limit_by(&mut env.clock, self.grace);
        let opts = self.odd(OddLines::Refuse);
        env.store.begin_walks();
        let answer = prune_old(env, opts, limit, cache, limits);
        env.store.end_walks();
        answer
    }
}

/// Prunes a cache as `CollectOpts::prune` does with blank options: no content is spared for its age, there are no further
/// roots, and nothing is synced.
pub fn prune<S: Stamps, C: Clock, N: Names>(
    env: &mut Env<S, C, N>,
    cache: &str,
    limits: Limits,
) -> Result<Pruned>
    ensures prunes { IfOk result (λ p. PrunesAs limits (told_by Refuse [] false) None
        (site_of cache.now env.old.base 0) p (S.log env.old.store) (S.log env.new.store)) }
    ensures stops { IfErr result (λ e. StopsPruning limits false
        (site_of cache.now env.old.base 0) e (S.log env.old.store) (S.log env.new.store)) }
    ensures names { env.new.names ≡ env.old.names }
    ensures base { env.new.base ≡ env.old.base }
{
    CollectOpts::new().prune(env, cache, limits)
}
