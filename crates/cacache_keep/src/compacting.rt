//! The call that writes the buckets of the index anew.
ghost use Rattle.std.specs.{Prelude.{◌≡◌, ◌+◌, ◌-◌, ◌^◌, false, IfOk, IfErr, length, min}, List.{sum}, Option.{option_to_list}};
ghost use Rattle.cacache_keep.specs.Compacting.{CompactsAll, CompactsCache, StopsCompacting, StopsCompactingEach};

use crate::buckets::{FoundBuckets, buckets_of};
use crate::settling::compact_bucket;
use crate::syncing::sync_above;
use cacache_core::errors::Result;
use cacache_core::text::Text;
use cacache_store::env::{Clock, Env, Names};
use cacache_store::store::Store;

/// What a compaction did.
#[derive(Debug, Drop)]
pub struct Compacted {
    /// How many buckets are written anew; 2^64 - 1 if there are more.
    pub buckets: u64,
    /// How many bytes that saved; 2^64 - 1 if it is more. A bucket that grew by a line feed saved none.
    pub bytes: u64,
}

/// What a compaction did once it came to one bucket more.
fn and_one(done: Compacted, saving: Option<u64>) -> Compacted
    ensures buckets { result.buckets
        ≡ min (done.buckets + length (option_to_list saving)) (2 ^ 64 - 1) }
    ensures bytes { result.bytes ≡ min (done.bytes + sum (option_to_list saving)) (2 ^ 64 - 1) }
{
    let Compacted { buckets, bytes } = done;
    match saving {
        Some(saved) => Compacted {
            buckets: buckets.saturating_add(1),
            bytes: bytes.saturating_add(saved),
        },
        None => Compacted { buckets, bytes },
    }
}

/// Compacts the buckets at these paths.
fn compact_each<S: Store, C: Clock, N: Names>(
    env: &mut Env<S, C, N>,
    durable: bool,
    cache: &str,
    paths: &[Text],
) -> Result<Compacted>
    ensures compacts { IfOk result (λ c. CompactsAll durable cache.now paths.now c.buckets c.bytes
        (S.log env.old.store) (S.log env.new.store)) }
    ensures stops { IfErr result (λ e. StopsCompactingEach durable cache.now paths.now e
        (S.log env.old.store) (S.log env.new.store)) }
    ensures clock { env.new.clock ≡ env.old.clock }
    ensures base { env.new.base ≡ env.old.base }
{
    let mut done = Compacted {
        buckets: 0,
        bytes: 0,
    };
    for path in paths {
        let saving = compact_bucket(env, durable, cache, path)?;
        done = and_one(done, saving);
    }
    Ok(done)
}

/// Compacts a cache, durably or not, and leaves the walk open.
fn compact_open<S: Store, C: Clock, N: Names>(
    env: &mut Env<S, C, N>,
    durable: bool,
    cache: &str,
) -> Result<Compacted>
    ensures compacts { IfOk result (λ c. CompactsCache durable cache.now c.buckets c.bytes
        (S.log env.old.store) (S.log env.new.store)) }
    ensures stops { IfErr result (λ e. StopsCompacting durable cache.now e
        (S.log env.old.store) (S.log env.new.store)) }
    ensures clock { env.new.clock ≡ env.old.clock }
    ensures base { env.new.base ≡ env.old.base }
{
    let FoundBuckets { tops, paths } = buckets_of(env.alloc, &mut env.store, cache)?;
    let done = compact_each(env, durable, cache, paths.as_slice())?;
    sync_above(env.alloc, &mut env.store, durable, cache, tops)?;
    Ok(done)
}

/// Writes each bucket of a cache's index anew, without lines that nobody needs. A line lies between line feeds and
/// begins with the right digest of its text. These lines stay, in their order, byte for byte:
///
/// - each line that this crate can't read, such as an entry with `0.5` in its metadata: another reader may read it
/// - each key's last line that this crate can read, if it is an entry
/// - that line also if it is a tombstone, and a line that this crate can't read comes before it
///
/// All else goes. A bucket's last line feed stays, which protects a durable line. Lookups and listings answer as
/// before, and so do those of another reader, if it reads as this crate does what this crate can read. A bucket that
/// would stay as it is isn't written.
///
/// A bucket is a file of the index two folders down, whose path has the names that a key's digest gives. All else
/// there stays, a link in a bucket's place too. The new bytes are written to a temporary file, which is synced and moved
/// over the bucket: whatever fails, a bucket has its old bytes or its new ones, and a loss of power leaves one or the
/// other of a bucket that was synced. Nothing else is synced, unless that is asked for by `CompactOpts::durable`.
///
/// Over real folders a rewritten bucket keeps its mode and its owner. If the owner can't be kept, the call ends with an
/// error that names the bucket, which stays as it was.
///
/// Compact a cache while nobody else uses it: an entry that is added meanwhile may be lost.
///
/// Errors: `IoError` if a folder of the index couldn't be listed, or a bucket couldn't be read or
/// written anew. Buckets before it are written anew then. A folder that isn't there is empty. `OutOfMemory` may
/// come at any time.
pub fn compact<S: Store, C: Clock, N: Names>(
    env: &mut Env<S, C, N>,
    cache: &str,
) -> Result<Compacted>
    ensures compacts { IfOk result (λ c. CompactsCache false cache.now c.buckets c.bytes
        (S.log env.old.store) (S.log env.new.store)) }
    ensures stops { IfErr result (λ e. StopsCompacting false cache.now e
        (S.log env.old.store) (S.log env.new.store)) }
    ensures clock { env.new.clock ≡ env.old.clock }
    ensures base { env.new.base ≡ env.old.base }
{
    CompactOpts::new().compact(env, cache)
}

/// How a cache is compacted: durably, or not. Contracts see which.
#[derive(Clone, Copy)]
pub struct CompactOpts {
    durable: bool,
}

impl CompactOpts {
    /// Blank options: only new bytes are synced.
    pub fn new() -> CompactOpts
        ensures { result.durable ≡ false }
    {
        CompactOpts { durable: false }
    }

    /// With the choice of whether what a compaction leaves is to outlast a loss of power. A durable one gives each
    /// bucket a last line feed. It syncs a bucket's folder after the move. It also syncs a bucket that stays as it is, and its folder. At the end it syncs the folders above those,
    /// once each: the ones in the index, the index and the cache.
    pub fn durable(self, yes: bool) -> CompactOpts
        ensures { result.durable ≡ yes }
    {
        let CompactOpts { durable: _ } = self;
        CompactOpts { durable: yes }
    }

    /// Compacts a cache as `compact` does, with these options.
    ///
    /// Errors are those of `compact`, and `IoError` if a sync failed. A bucket whose new bytes weren't
    /// synced has its old ones. One whose folder wasn't synced has the new ones, and which of them a loss
    /// of power leaves isn't known until a later durable compaction, which syncs it again.
    pub fn compact<S: Store, C: Clock, N: Names>(
        self,
        env: &mut Env<S, C, N>,
        cache: &str,
    ) -> Result<Compacted>
        ensures compacts { IfOk result (λ c. CompactsCache self.durable cache.now c.buckets c.bytes
            (S.log env.old.store) (S.log env.new.store)) }
        ensures stops { IfErr result (λ e. StopsCompacting self.durable cache.now e
            (S.log env.old.store) (S.log env.new.store)) }
        ensures clock { env.new.clock ≡ env.old.clock }
        ensures base { env.new.base ≡ env.old.base }
    {
        env.store.begin_walks();
        let answer = compact_open(env, self.durable, cache);
        env.store.end_walks();
        answer
    }
}

impl Default for CompactOpts {
    /// Blank options.
    fn default() -> CompactOpts
        ensures { result.durable ≡ false }
    {
        CompactOpts::new()
    }
}
