//! Real folders, with the system's clock and the numbers of this process.
ghost use Rattle.std.specs.Prelude.{◌≡◌, IfErr, IfOk};
ghost use Rattle.cacache_core.specs.declared.errors.Error.TheVariants.{OutOfMemory};

use cacache_core::errors::Result;
use cacache_folder::{FolderFile, FolderStore, FolderTemp, ProcessNames, SystemClock};
use cacache_store::env::Env;
use cacache_sync::content::reader::SyncReader;
use cacache_sync::put::linker::SyncToLinker;
use cacache_sync::put::writer::SyncWriter;
use cacache_writers::Writer;

/// The environment of caches in real folders.
pub type Folders = Env<FolderStore<HostRuntime>, SystemClock<HostRuntime>, ProcessNames>;

/// An open content of a cache in real folders.
pub type FolderReader = SyncReader<FolderFile<HostRuntime>>;

/// A content that is being written into a cache in real folders.
pub type FolderWriter = SyncWriter<FolderTemp<HostRuntime>>;

/// A content that is being written by polls into a cache in real folders.
pub type FolderPolledWriter = Writer<FolderTemp<HostRuntime>>;

/// An open file that is to become a content of a cache in real folders by a link.
pub type FolderLinker = SyncToLinker<FolderFile<HostRuntime>>;

/// The environment of caches in real folders. `base` is for links alone: the absolute path of the folder that a
/// relative target of a link starts from. A relative path of a cache starts from the working folder of the process.
///
/// ```
/// let env = cacache::env::folders(rt, "/home/me")?;
/// let base = env.base.as_str(); // "/home/me"
/// ```
///
/// `OutOfMemory` is the only error. No folder is touched.
pub fn folders(rt: HostRuntime, base: &str) -> Result<Folders>
    ensures store { IfOk result (λ env. env.store.runner.system.rt ≡ rt) }
    ensures clock { IfOk result (λ env. env.clock.rt ≡ rt) }
    ensures base { IfOk result (λ env. env.base ≡ base.now) }
    ensures err { IfErr result (λ e. e ≡ OutOfMemory) }
{
    let store = FolderStore::new(rt);
    let clock = SystemClock::new(rt);
    let names = ProcessNames::new(rt);
    Ok(Env::new(rt.alloc(), store, clock, names, base)?)
}

/// Another environment of the same folders, with the same base. Numbers for temporary files are its own. In it, calls can
/// be made while a future or a listing borrows the first one: a second read, or the removal of a listed key.
///
/// ```
/// let env = cacache::env::folders(rt, "/home/me")?;
/// let other = cacache::env::another(&env)?;
/// let base = other.base.as_str(); // "/home/me"
/// ```
///
/// `OutOfMemory` is the only error. No folder is touched.
pub fn another(env: &Folders) -> Result<Folders>
    ensures store { IfOk result (λ other. other.store.runner.system.rt ≡ env.now.clock.rt) }
    ensures clock { IfOk result (λ other. other.clock.rt ≡ env.now.clock.rt) }
    ensures base { IfOk result (λ other. other.base ≡ env.now.base) }
    ensures err { IfErr result (λ e. e ≡ OutOfMemory) }
{
    folders(env.clock.runtime(), env.base.as_str())
}
