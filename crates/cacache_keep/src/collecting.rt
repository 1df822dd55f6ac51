//! The calls that remove what no entry has.
ghost use Rattle.std.specs.Prelude.{◌≡◌, ℕ, [], None, Some, Option, IfOk, IfErr, false};
ghost use Rattle.cacache_jobs.specs.{Environment.{KeepsRest}, JobStates.{site_of}};
ghost use Rattle.cacache_keep.specs.{declared.checking.OddLines.TheVariants.{Refuse}, Collecting.{CollectsAs, StopsCollectingBy, told_by}, Grace.{LimitedBy}, Keeping.{CollectsWith, StopsCollecting}};

use crate::checking::{OddLines, check};
use crate::choosing::{Chosen, choose};
use crate::dropping::{Tally, drop_each};
use crate::grace::limit_by;
use crate::removing::remove_each;
use crate::roots::spare_roots;
use crate::syncing::sync_index;
use cacache_core::errors::Result;
use cacache_core::integrity::Integrity;
use cacache_store::env::{Clock, Env, Names};
use cacache_store::store::{Stamps, Store};

/// What a collection did.
#[derive(Debug, Drop)]
pub struct Collected {
    /// How many contents were left.
    pub kept: u64,
    /// The addresses of the contents that are removed.
    pub dropped: Vec<Integrity>,
}

/// Collects a cache as `collect` does, and leaves the walk open.
fn collect_open<S: Store, C: Clock, N: Names>(
    env: &mut Env<S, C, N>,
    cache: &str,
) -> Result<Collected>
    ensures collects { IfOk result (λ c. CollectsWith Refuse (site_of cache.now env.old.base 0)
        c.kept c.dropped.items (S.log env.old.store) (S.log env.new.store)) }
    ensures stops { IfErr result (λ e. StopsCollecting Refuse (site_of cache.now env.old.base 0) e
        (S.log env.old.store) (S.log env.new.store)) }
    ensures rest { KeepsRest env.old env.new }
{
    let chosen = choose(env, cache)?;
    check(env.alloc, OddLines::Refuse, chosen.odd.as_slice())?;
    let Chosen {
        kept,
        dropped,
        odd: _,
    } = chosen;
    remove_each(env, cache, dropped.as_slice())?;
    Ok(Collected { kept, dropped })
}

/// Removes each content of a cache that is the address of no entry. If one is a link, the link is removed and its
/// target stays. Whatever else lies among the contents stays.
///
/// A folder of the index that isn't there has no items, so every content is removed then; a link in its place that
/// leads to nothing is an `IoError`. Collect a cache while nobody writes to it: a content is stored before its entry.
/// It asks no content for its size: `plan`, called before it, gives the bytes of each that it will remove.
///
/// A line of the index with a right digest that this crate can't read is odd: another reader may read it, and the content
/// that it names. So a cache with such a line isn't collected: the call ends with an `IoError` of `Unsupported`, which
/// names the first such bucket. `CollectOpts::odd` can let it go on. Each bucket is read once.
///
/// Errors are those of `content::read::list`, the first error that `ls` gives, as for a link in the index to a folder, and
/// then that one, all of them before anything is removed. A removal that failed ends the call, and those before it stay
/// done. `OutOfMemory` may come at any time.
pub fn collect<S: Store, C: Clock, N: Names>(
    env: &mut Env<S, C, N>,
    cache: &str,
) -> Result<Collected>
    ensures collects { IfOk result (λ c. CollectsWith Refuse (site_of cache.now env.old.base 0)
        c.kept c.dropped.items (S.log env.old.store) (S.log env.new.store)) }
    ensures stops { IfErr result (λ e. StopsCollecting Refuse (site_of cache.now env.old.base 0) e
        (S.log env.old.store) (S.log env.new.store)) }
    ensures clock { env.new.clock ≡ env.old.clock }
    ensures names { env.new.names ≡ env.old.names }
    ensures base { env.new.base ≡ env.old.base }
{
    env.store.begin_walks();
    let answer = collect_open(env, cache);
    env.store.end_walks();
    answer
}

/// What a collection with options did: how many contents had which fate; 2^64 - 1 if there are more.
#[derive(Clone, Copy, Debug, PartialEq, Eq)]
pub struct Collection {
    /// How many contents were left since an entry or a further root names them.
    pub kept: u64,
    /// How many contents are removed.
    pub dropped: u64,
    /// How many contents that nothing names were left, as young or of unknown age.
    pub young: u64,
    /// How many such contents were gone when their turn came, since another call removed them.
    pub gone: u64,
}

/// How a cache is collected, also after a pruning: which contents stay beside those of entries, and what is synced.
#[derive(Clone, Copy)]
pub struct CollectOpts<'a> {
    odd: OddLines,
    pub(crate) grace: Option<u64>,
    keep: &'a [Integrity],
    pub(crate) durable: bool,
}

/// Collects a cache with these options, and spares the contents that changed at the limit or later.
pub(crate) fn collect_old<S: Stamps, C: Clock, N: Names>(
    env: &mut Env<S, C, N>,
    opts: CollectOpts<'_>,
    limit: Option<u64>,
    cache: &str,
) -> Result<Collection>
    ensures collects { IfOk result (λ c. CollectsAs
        (told_by opts.entry.odd opts.entry.keep.now opts.entry.durable) limit
        (site_of cache.now env.old.base 0) c (S.log env.old.store) (S.log env.new.store)) }
    ensures stops { IfErr result (λ e. StopsCollectingBy
        (told_by opts.entry.odd opts.entry.keep.now opts.entry.durable) limit
        (site_of cache.now env.old.base 0) e
        (S.log env.old.store) (S.log env.new.store)) }
    ensures rest { KeepsRest env.old env.new }
{
    let chosen = choose(env, cache)?;
    check(env.alloc, opts.odd, chosen.odd.as_slice())?;
    let Chosen {
        kept,
        dropped,
        odd: _,
    } = chosen;
    let unused = dropped.len();
    let rest = spare_roots(env.alloc, dropped, opts.keep)?;
    let kept = kept.saturating_add(unused.saturating_sub(rest.len()) as u64);
    sync_index(env.alloc, &mut env.store, opts.durable, cache)?;
    let Tally {
        dropped,
        young,
        gone,
    } = drop_each(env.alloc, &mut env.store, limit, cache, rest.as_slice())?;
    Ok(Collection {
        kept,
        dropped,
        young,
        gone,
    })
}

impl<'a> CollectOpts<'a> {
    /// Blank options: odd lines are refused, no content is spared for its age, no root is added, and nothing is synced.
    pub fn new() -> CollectOpts<'a>
        ensures odd { result.odd ≡ Refuse }
        ensures grace { result.grace ≡ None }
        ensures keep { result.keep.now ≡ [] }
        ensures durable { result.durable ≡ false }
    {
        CollectOpts {
            odd: OddLines::Refuse,
            grace: None,
            keep: &[],
            durable: false,
        }
    }

    /// With the choice of what to do about odd lines in the index. With `OddLines::Ignore` a content that only such a
    /// line names is removed, though another reader may need it.
    pub fn odd(self, odd: OddLines) -> CollectOpts<'a>
        ensures { result ≡ record self.entry { odd = odd } }
    {
        let mut opts = self;
        opts.odd = odd;
        opts
    }

    /// With a grace, in milliseconds: a content stays whose file was last written, moved or given other rights at or
    /// after the time at which the collection begins, less the grace. The clock is asked once, at the beginning. A
    /// content is asked for right before its removal, and stays if its store doesn't know when it changed.
    ///
    /// With this, puts may run during a collection if each ends within the grace after its content was moved into
    /// place: its entry comes before the content is old. A put of bytes that are there already moves a new file into
    /// place, so it counts as any other. This isn't so for
    ///
    /// - a put that takes longer than the grace between the move of its content and its entry
    /// - a put that moves bytes into the place of an old content between the question about it and its removal
    /// - a linker that meets an older link: no time of that link changes
    /// - `touch`, and an insertion without a put, of a content that no entry has
    ///
    /// Their keys may lead to no content then. The grace is compared with times of the file system, so it must be longer
    /// than what that one's clock and this one's differ by.
    pub fn grace(self, millis: u64) -> CollectOpts<'a>
        ensures { result ≡ record self.entry { grace = Some millis } }
    {
        let mut opts = self;
        opts.grace = Some(millis);
        opts
    }

    /// With further roots: the contents of these integrities stay though no entry may name them, as the outputs that an
    /// entry lists in its metadata. An integrity with several hashes keeps the content at its address.
    pub fn keep(self, addresses: &'a [Integrity]) -> CollectOpts<'a>
        ensures keep { result.keep.now ≡ addresses.now }
        ensures others { result ≡ record self.entry { keep = result.keep } }
    {
        let mut opts = self;
        opts.keep = addresses;
        opts
    }

    /// With the choice of whether what decides is to outlast a loss of power: all buckets of the index, their folders
    /// and those above them are synced before the first removal. Without it a loss of power after a collection may
    /// take lines that weren't synced: a key whose content is removed may come back, and a key may be lost whose put
    /// wasn't durable. A bucket behind a link isn't synced. The removals aren't synced either: after a loss a content
    /// may be there again.
    pub fn durable(self, yes: bool) -> CollectOpts<'a>
        ensures { result ≡ record self.entry { durable = yes } }
    {
        let mut opts = self;
        opts.durable = yes;
        opts
    }

    /// Collects a cache as `collect` does, with these options. After each removal the content's folder is removed if it
    /// is empty, and then the one above it. A folder that can't be removed stays, and that is no error. A put that has
    /// made a folder and finds it gone fails with `NotFound`. A content that is gone when its turn comes is counted,
    /// so that two collections may run at once.
    ///
    /// Errors are those of `collect`; with `OddLines::Ignore` not the one about odd lines; and if it is durable, `IoError`
    /// if the buckets couldn't be listed or synced, before anything is removed. A removal that failed for another
    /// reason than that nothing was there ends the call, and those before it stay done.
    pub fn collect<S: Stamps, C: Clock, N: Names>(
        self,
        env: &mut Env<S, C, N>,
        cache: &str,
    ) -> Result<Collection>
        ensures collects { IfOk result (λ c. (limit : Option ℕ)
            × LimitedBy C.given self.entry.grace env.old.clock env.new.clock limit
            × CollectsAs (told_by self.entry.odd self.entry.keep.now self.entry.durable)
            limit (site_of cache.now env.old.base 0) c
            (S.log env.old.store) (S.log env.new.store)) }
        ensures stops { IfErr result (λ e. (limit : Option ℕ)
            × LimitedBy C.given self.entry.grace env.old.clock env.new.clock limit
            × StopsCollectingBy
            (told_by self.entry.odd self.entry.keep.now self.entry.durable)
            limit (site_of cache.now env.old.base 0) e
            (S.log env.old.store) (S.log env.new.store)) }
        ensures names { env.new.names ≡ env.old.names }
        ensures base { env.new.base ≡ env.old.base }
    {
        let limit = limit_by(&mut env.clock, self.grace);
        env.store.begin_walks();
        let answer = collect_old(env, self, limit, cache);
        env.store.end_walks();
        answer
    }
}

impl Default for CollectOpts<'_> {
    /// Blank options.
    fn default() -> Self
        ensures odd { result.odd ≡ Refuse }
        ensures grace { result.grace ≡ None }
        ensures keep { result.keep.now ≡ [] }
        ensures durable { result.durable ≡ false }
    {
        CollectOpts::new()
    }
}
