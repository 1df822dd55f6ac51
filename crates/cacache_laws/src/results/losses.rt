//! After a loss of power: a store in memory that began with what it left.
ghost use Rattle.cacache_laws.specs.results.{DurableCases.{InsertsStandInOne, PutsStandInOne, PutsStandLast}, FoundLinks.{HistoriesKeepLinks, LossesLeaveLastLinks, LossesLeaveLinks}, Losses.{LeftReadMeans, LeftWriteMeans, LossesLeaveLast, LossesLeavePuts, LossesLeaveStanding}};

use cacache_core::errors::Result;
use cacache_core::integrity::{Algorithm, Integrity};
use cacache_disk::memory::MemStore;
use cacache_store::env::{Clock, Env, Names};

/// What a loss of power left of a history: everything is where it may be, and what a durable put that answered stored
/// is left. Its entry is in its bucket; if none after it answers to the key, the key leads to bytes with the digest
/// of the put's. So it does if nobody appended to the bucket after the entry.
pub fn loss_results()
    ensures stands { LossesLeaveStanding }
    ensures puts { LossesLeavePuts }
    ensures last { LossesLeaveLast }
{}

/// What a loss of power leaves of a durable put of a legal history that answered, whatever was at its content's
/// address: bytes with the digest of the address, or the link that it found there, and its entry. What the link leads
/// to is bytes with that digest too, if its target is a file that no step of the history changed: then the key leads
/// to these bytes, if none after the put's entry answers to it.
pub fn link_losses()
    ensures outlast { HistoriesKeepLinks }
    ensures puts { LossesLeaveLinks }
    ensures last { LossesLeaveLastLinks }
{}

/// Histories of one durable commit alone: at any cache whose text names a folder one is legal, so that the laws of
/// losses speak of some. In that of a put with a key its entry is the last of its bucket, whatever goes elsewhere
/// after it.
pub fn durable_cases()
    ensures inserts { InsertsStandInOne }
    ensures puts { PutsStandInOne }
    ensures last { PutsStandLast }
{}

/// After `read_sync` of a store, if all that is known is that everything in it is where it may be, as after a loss:
/// the bytes that the key leads to were read, unless the error is excused. The tree stays.
pub fn after_read_left<C: Clock, N: Names>(
    env: &Env<MemStore, C, N>,
    cache: &str,
    key: &str,
    read: &Result<Vec<u8>>,
)
    ensures { LeftReadMeans cache.now key.now read.now env.now }
{
    let _log = env.store.log();
}

/// After `write_sync` of such a store: the key leads to the bytes, or the error is excused. Other keys lead where they led,
/// and contents stay, except at the address of the bytes, where these lie then. If the cache's text names a folder and no
/// temporary file is left in it, only memory fails the write.
pub fn after_write_left<C: Clock, N: Names>(
    env: &Env<MemStore, C, N>,
    algo: Algorithm,
    cache: &str,
    key: &str,
    data: &[u8],
    written: &Result<Integrity>,
)
    ensures { LeftWriteMeans C.given N.given algo cache.now key.now «data».now written.now env.now }
{
    let _count = data.len();
    let _log = env.store.log();
}
