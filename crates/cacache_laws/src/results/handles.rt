//! After calls of open writers.
ghost use Rattle.cacache_laws.specs.results.Handles.{PlainSaysFit, WritersGoOn, OpeningsMean, CommitsMean, CommitsSucceed, CommitsTell, GivingUpMeans, FailedWritesMean};

use cacache_disk::memory::MemStore;
use cacache_store::env::{Clock, Env, Names};

/// After each call of a writer: an opened one took nothing yet, and goes on with the bytes that it gets. A commit
/// that stored leads its key to an entry of what was said, and the bytes lie there, or what lay there stayed.
/// Whatever it answers, other keys lead where they led, and all bytes stay except those that others with their
/// address replaced. A writer that is given up, by `abandon` or for a write that failed, leaves all that was known.
/// On a cache that is ready an opening fails for memory alone. While the writer's file is there, a commit fails for memory,
/// or for what was expected of the bytes, or since its entry can't be written; for memory alone if nothing else was said
/// than a time. What is said without metadata fits (`plain`).
pub fn writer_laws<C: Clock, N: Names>(env: &Env<MemStore, C, N>)
    ensures plain { PlainSaysFit }
    ensures goes_on { WritersGoOn }
    ensures opens { OpeningsMean N.given env.now }
    ensures commits { CommitsMean C.given env.now }
    ensures succeeds { CommitsSucceed C.given env.now }
    ensures tells { CommitsTell C.given env.now }
    ensures gives_up { GivingUpMeans env.now }
    ensures fails { FailedWritesMean env.now }
{
    let _log = env.store.log();
}
