//! Files outside of the cache: some that are linked into it, and packages that are copied out.
ghost use Rattle.std.specs.Prelude.{ℕ, List, [], Some, IfErr, IfOk, true};
ghost use Rattle.cacache.specs.{Calls.{nothing_said}, Laws.{IsCache, IsApart, LeavesKnownCache, NamesFolder, FailsExport, HasArrived, IsLinking, LinkedBytes, OpenedLinker, Copy, Key, based}};
ghost use Rattle.uses_client.specs.Given.{ArrivesAt, ArrivesLinked, CopiesFile, LinksHeld, LinksShown, MirrorsFile, RefusesBroken};

use crate::reading::fetch;
use cacache::env::{Clock, Env, MemoryLinker, Names};
use cacache::laws::{after_copy, after_link, linker_laws};
use cacache::store::MemStore;
use cacache::{Integrity, Result, SyncToLinker};
use std::io::Read;

/// Links a file into the cache under a key, which leads to the integrity of the bytes that the file shows. If the cache's path
/// names a folder, and the file shows bytes, that fails for memory alone, unless a link that leads nowhere lies under their
/// integrity.
pub fn link<C: Clock, N: Names>(
    env: &mut Env<MemStore, C, N>,
    cache: &str,
    key: &str,
    file: &str,
) -> Result<Integrity>
    requires cache { IsCache cache.now env.old.store }
    requires apart { IsApart cache.now (based env.old.base file.now) }
    ensures sound { IsCache cache.now env.new.store }
    ensures held { LinksHeld cache.now key.now (based env.old.base file.now) result
        env.old.store env.new.store }
    ensures links { LinksShown cache.now (based env.old.base file.now) result env.old.store }
{
    let linked = cacache::link_to_sync(env, cache, key, file);
    after_link(env, cache, key, file, &linked);
    linked
}

/// Links a file into the cache under a key, and reads it there: while the file shows the same bytes, these are read, if
/// nothing lay under their integrity. Which errors come isn't said here; `link` says when the first step fails.
pub fn mirror<C: Clock, N: Names>(
    env: &mut Env<MemStore, C, N>,
    cache: &str,
    key: &str,
    file: &str,
) -> Result<Vec<u8>>
    requires cache { IsCache cache.now env.old.store }
    requires apart { IsApart cache.now (based env.old.base file.now) }
    ensures sound { IsCache cache.now env.new.store }
    ensures mirrors { MirrorsFile cache.now (based env.old.base file.now) result
        env.old.store env.new.store }
{
    let _sri = link(env, cache, key, file)?;
    fetch(env, cache, key)
}

/// Opens a file that is to be linked into the cache under a key.
fn open<C: Clock, N: Names>(
    env: &mut Env<MemStore, C, N>,
    cache: &str,
    key: &str,
    file: &str,
) -> Result<MemoryLinker>
    requires { IsCache cache.now env.old.store }
    ensures { OpenedLinker cache.now (Some key.now) (based env.old.base file.now) nothing_said
        result env.old.store env.new.store }
{
    let opened = SyncToLinker::open(env, cache, key, file);
    linker_laws(env);
    opened
}

/// Reads the first bytes of a file that was opened, and links it.
fn finish<C: Clock, N: Names>(
    env: &mut Env<MemStore, C, N>,
    key: &str,
    linker: MemoryLinker,
) -> Result<Integrity>
    ensures { (cache path held : List ℕ) → IsCache cache env.old.store → IsApart cache path
        → IsLinking cache (Some key.now) path nothing_said held [] linker
        → LinkedBytes cache (Some key.now) path nothing_said held result
        env.old.store env.new.store }
{
    let mut linker = linker;
    let mut front = [0; 64];
    let _front = linker.read(&mut front);
    let linked = linker.commit(env);
    linker_laws(env);
    linked
}

/// Opens a file, reads its first bytes, links it into the cache under a key, and reads it there: the same is read as by
/// `mirror`.
pub fn adopt<C: Clock, N: Names>(
    env: &mut Env<MemStore, C, N>,
    cache: &str,
    key: &str,
    file: &str,
) -> Result<Vec<u8>>
    requires cache { IsCache cache.now env.old.store }
    requires apart { IsApart cache.now (based env.old.base file.now) }
    ensures sound { IsCache cache.now env.new.store }
    ensures mirrors { MirrorsFile cache.now (based env.old.base file.now) result
        env.old.store env.new.store }
{
    let linker = open(env, cache, key, file)?;
    let _sri = finish(env, key, linker)?;
    fetch(env, cache, key)
}

/// Copies the bytes under a key to a path outside of the cache, and counts them: whole ones, whatever lies there. If the
/// cache's path names a folder, an error says what is wrong with the key, its bytes or the path, and nothing changed, or that memory was refused.
pub fn export<C: Clock, N: Names>(
    env: &mut Env<MemStore, C, N>,
    cache: &str,
    key: &str,
    to: &str,
) -> Result<u64>
    requires cache { IsCache cache.now env.old.store }
    requires apart { IsApart cache.now to.now }
    ensures leaves { LeavesKnownCache cache.now env.old.store env.new.store }
    ensures arrives { ArrivesAt cache.now key.now to.now result env.old.store env.new.store }
    ensures linked { ArrivesLinked cache.now key.now to.now result env.old.store env.new.store }
    ensures whole { IfOk result (λ count.
        HasArrived cache.now (Key key.now) true to.now count env.old.store env.new.store) }
    ensures refuses { NamesFolder cache.now → RefusesBroken cache.now key.now result env.old.store }
    ensures fails { NamesFolder cache.now → IfErr result (λ e.
        FailsExport cache.now (Key key.now) Copy true to.now e env.old.store env.new.store) }
{
    let copied = cacache::copy_sync(env, cache, key, to);
    after_copy(env, cache, to, &copied);
    copied
}

/// Links a file into the cache under a key, and copies what lies there to a path outside of the cache: bytes with the digest of
/// those that the file showed, whatever lay under their integrity before. Which errors come isn't said here; `link` and
/// `export` say it.
pub fn link_and_copy<C: Clock, N: Names>(
    env: &mut Env<MemStore, C, N>,
    cache: &str,
    key: &str,
    file: &str,
    to: &str,
) -> Result<u64>
    requires cache { IsCache cache.now env.old.store }
    requires apart { IsApart cache.now (based env.old.base file.now) }
    requires out { IsApart cache.now to.now }
    ensures sound { IsCache cache.now env.new.store }
    ensures copies { CopiesFile (based env.old.base file.now) to.now result
        env.old.store env.new.store }
{
    let _sri = link(env, cache, key, file)?;
    export(env, cache, key, to)
}
