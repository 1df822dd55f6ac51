//! After calls of open linkers.
ghost use Rattle.cacache_laws.specs.results.{Handles.{PlainSaysFit}, Linkers.{LinkersGoOn, LinkOpeningsMean, SizedOpeningsMean, LinkCommitsMean}};

use cacache_disk::memory::MemStore;
use cacache_store::env::{Clock, Env, Names};

/// After each call of a linker: an opened one took nothing of its target yet, and goes on with what is read. A
/// commit that stored leads its key to an entry of what was said, with the integrity of all bytes that the target
/// showed when it was opened, whatever became of it since; a link to it lies there, unless something lay there
/// before. Whatever it answers, other keys lead where they led, and all bytes stay except those at that address. An
/// opening leaves all that was known, and a linker that is dropped does nothing. What is said without metadata fits
/// (`plain`).
pub fn linker_laws<C: Clock, N: Names>(env: &Env<MemStore, C, N>)
    ensures plain { PlainSaysFit }
    ensures goes_on { LinkersGoOn }
    ensures opens { LinkOpeningsMean env.now }
    ensures opens_sized { SizedOpeningsMean env.now }
    ensures commits { LinkCommitsMean C.given env.now }
{
    let _log = env.store.log();
}
