//! The call that verifies a cache.
ghost use Rattle.std.specs.Prelude.{◌≡◌, IfOk, IfErr};
ghost use Rattle.cacache_jobs.specs.{Environment.{KeepsRest}, JobStates.{site_of}};
ghost use Rattle.cacache_keep.specs.{Keeping.{StopsVerifying}, Told.{VerifiesAs}};

use crate::asking::dangling_of;
use crate::index::{Index, read_index};
use crate::reading::{Read, read_each};
use cacache_core::errors::Result;
use cacache_core::integrity::Integrity;
use cacache_core::text::Text;
use cacache_entry::Metadata;
use cacache_store::env::{Clock, Env, Names};
use cacache_store::store::Store;
use cacache_walks::{Contents, list};

/// What a verification found.
#[derive(Debug, Drop)]
pub struct Verdict {
    /// How many contents have the bytes that their address says.
    pub good: u64,
    /// How many bytes they have; 2^64 - 1 if there are more.
    pub good_bytes: u64,
    /// The addresses of the others, in the order of the listing.
    pub damaged: Vec<Integrity>,
    /// How many bytes these have. One that is gone has none; 2^64 - 1 if there are more.
    pub damaged_bytes: u64,
    /// The entries whose content isn't there.
    pub dangling: Vec<Metadata>,
    /// The paths of whatever else lies among the contents, by their bytes.
    pub strange: Vec<String>,
    /// The paths of the buckets with odd lines, in the order in which the index is read.
    pub odd: Vec<Text>,
}

/// Verifies a cache as `verify` does, and leaves the walk open.
fn verify_open<S: Store, C: Clock, N: Names>(env: &mut Env<S, C, N>, cache: &str) -> Result<Verdict>
    ensures verifies { IfOk result (λ v. VerifiesAs (site_of cache.now env.old.base 0) v
        (S.log env.old.store) (S.log env.new.store)) }
    ensures stops { IfErr result (λ e. StopsVerifying (site_of cache.now env.old.base 0) e
        (S.log env.old.store) (S.log env.new.store)) }
    ensures rest { KeepsRest env.old env.new }
{
    let Contents { addresses, strange } = list(env, cache)?;
    let Read {
        good,
        good_bytes,
        damaged,
        damaged_bytes,
    } = read_each(env.alloc, &mut env.store, cache, addresses)?;
    let Index { entries, odd } = read_index(env.alloc, &mut env.store, cache)?;
    let dangling = dangling_of(env, cache, entries)?;
    Ok(Verdict {
        good,
        good_bytes,
        damaged,
        damaged_bytes,
        dangling,
        strange,
        odd,
    })
}

/// Reads each content of a cache, and asks for each entry whether its content is there. Nothing changes. A content is
/// read in pieces of 8 KiB, one of them in memory at a time, and its bytes are counted. For a cache whose folder
/// isn't there the verdict has nothing.
///
/// A line of the index with a right digest that this crate can't read is odd: another reader may read it. Its entry isn't
/// asked for, and the verdict names its bucket. Each bucket is read once.
///
/// A content whose bytes don't meet its address is damaged, and so is one that was gone when it was
/// to be opened. One that is a link is judged by its target's bytes, and is damaged where it leads to
/// nothing. Errors are those of `content::read::list`, of an opening or a read that failed
/// otherwise, and the first error that `ls` gives: one is that of a link in the index to a folder,
/// which isn't followed. A folder of the index that isn't there has no items; a link in its place
/// that leads to nothing is an `IoError`. `OutOfMemory` may come at any time.
pub fn verify<S: Store, C: Clock, N: Names>(env: &mut Env<S, C, N>, cache: &str) -> Result<Verdict>
    ensures verifies { IfOk result (λ v. VerifiesAs (site_of cache.now env.old.base 0) v
        (S.log env.old.store) (S.log env.new.store)) }
    ensures stops { IfErr result (λ e. StopsVerifying (site_of cache.now env.old.base 0) e
        (S.log env.old.store) (S.log env.new.store)) }
    ensures clock { env.new.clock ≡ env.old.clock }
    ensures names { env.new.names ≡ env.old.names }
    ensures base { env.new.base ≡ env.old.base }
{
    let answer = verify_open(env, cache);
    env.store.end_walks();
    answer
}
