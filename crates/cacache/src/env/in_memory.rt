//! A disk in memory, with the system's clock and the numbers of this process.
ghost use Rattle.std.specs.Prelude.{◌≡◌, [], IfErr, IfOk};
ghost use Rattle.cacache_core.specs.declared.errors.Error.TheVariants.{OutOfMemory};

use cacache_core::errors::Result;
use cacache_disk::memory::MemStore;
use cacache_folder::{ProcessNames, SystemClock};
use cacache_store::env::Env;
use cacache_store::store::{PlainFile, PlainTemp};
use cacache_sync::content::reader::SyncReader;
use cacache_sync::put::linker::SyncToLinker;
use cacache_sync::put::writer::SyncWriter;

/// The environment of caches on a disk in memory.
pub type Memory = Env<MemStore, SystemClock<HostRuntime>, ProcessNames>;

/// An open content of a cache in memory.
pub type MemoryReader = SyncReader<PlainFile>;

/// A content that is being written into a cache in memory.
pub type MemoryWriter = SyncWriter<PlainTemp>;

/// An open file in memory that is to become a content by a link.
pub type MemoryLinker = SyncToLinker<PlainFile>;

/// The environment of caches on a disk in memory, which has nothing but the top folder. A relative target of a link starts
/// from the folder `base`.
///
/// ```
/// let mut env = cacache::env::memory(rt, "/")?;
/// cacache::write_sync(&mut env, "my-cache", "key", b"my data")?;
/// let bytes = cacache::read_sync(&mut env, "my-cache", "key")?; // b"my data"
/// ```
///
/// `OutOfMemory` is the only error.
pub fn memory(rt: HostRuntime, base: &str) -> Result<Memory>
    ensures store { IfOk result (λ env. env.store ≡ []) }
    ensures clock { IfOk result (λ env. env.clock.rt ≡ rt) }
    ensures base { IfOk result (λ env. env.base ≡ base.now) }
    ensures err { IfErr result (λ e. e ≡ OutOfMemory) }
{
    let store = MemStore::new(rt.alloc())?;
    let clock = SystemClock::new(rt);
    let names = ProcessNames::new(rt);
    Ok(Env::new(rt.alloc(), store, clock, names, base)?)
}
