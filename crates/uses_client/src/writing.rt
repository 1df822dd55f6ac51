//! A writer in memory, call by call.
ghost use Rattle.std.specs.Prelude.{◌<◌, ◌^◌, ◌++◌, ℕ, List, Option, Some, IfErr, length};
ghost use Rattle.cacache.specs.{Calls.{Said}, Laws.{CommittedBytes, FailsCommit, FileAt, IsCache, IsWriting, LeavesKnownCache, NamesFolder, OpenedWriter, SaysFit}};
ghost use Rattle.uses_client.specs.{Packages.{FailsWrite}, Writing.{Fed}};

use cacache::env::{Clock, Env, MemoryWriter, Names};
use cacache::laws::writer_laws;
use cacache::store::MemStore;
use cacache::{Integrity, Result, WriteOpts};

/// Opens a writer under a key.
pub(crate) fn open<C: Clock, N: Names>(
    env: &mut Env<MemStore, C, N>,
    cache: &str,
    key: &str,
    opts: WriteOpts,
) -> Result<MemoryWriter>
    requires { IsCache cache.now env.old.store }
    ensures { OpenedWriter cache.now (Some key.now) opts result env.old.store env.new.store }
{
    let opened = opts.open_sync(env, cache, key);
    writer_laws(env);
    opened
}

/// Hands it more bytes; if that fails, it is given up.
pub(crate) fn feed<C: Clock, N: Names>(
    env: &mut Env<MemStore, C, N>,
    writer: MemoryWriter,
    data: &[u8],
) -> Result<MemoryWriter>
    ensures fed { (cache : List ℕ) (key : Option (List ℕ)) (s : Said) (bytes : List ℕ)
        → IsCache cache env.old.store → IsWriting cache key s bytes writer
        → Fed cache key s (bytes ++ «data».now) writer result env.old.store env.new.store }
    ensures fails { IfErr result FailsWrite }
{
    let written = writer.write_or_abandon(env, data);
    writer_laws(env);
    written
}

/// Commits it.
pub(crate) fn finish<C: Clock, N: Names>(
    env: &mut Env<MemStore, C, N>,
    key: &str,
    writer: MemoryWriter,
) -> Result<Integrity>
    ensures commits { (cache : List ℕ) (s : Said) (bytes : List ℕ)
        → IsCache cache env.old.store → IsWriting cache (Some key.now) s bytes writer → SaysFit s
        → length bytes < 2 ^ 64
        → CommittedBytes cache (Some key.now) s bytes result env.old.store env.new.store }
    ensures tells { (cache : List ℕ) (s : Said) (bytes : List ℕ)
        → IsCache cache env.old.store → NamesFolder cache
        → FileAt writer.writer.path env.old.store
        → IsWriting cache (Some key.now) s bytes writer → length bytes < 2 ^ 64
        → IfErr result (FailsCommit s bytes) }
{
    let stored = writer.commit(env);
    writer_laws(env);
    stored
}

/// Gives it up.
pub(crate) fn leave<C: Clock, N: Names>(
    env: &mut Env<MemStore, C, N>,
    writer: MemoryWriter,
) -> Result<()>
    ensures { (cache : List ℕ) (key : Option (List ℕ)) (s : Said) (bytes : List ℕ)
        → IsCache cache env.old.store → IsWriting cache key s bytes writer
        → LeavesKnownCache cache env.old.store env.new.store }
{
    let left = writer.abandon(env);
    writer_laws(env);
    left
}
