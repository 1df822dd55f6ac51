//! Packages that are stored by a writer.
ghost use Rattle.std.specs.Prelude.{◌≡◌, ◌∷◌, List, Some, IfOk, IfErr, OnOk, length};
ghost use Rattle.cacache.specs.{Integrities.{Hash, Meets, Sha256, integrity_under}, Laws.{IsCache, IsIntegrity, IsReady, KeepsUntouched, LeadsToEntry, LeavesKnownCache, SaysFit, view}};
ghost use Rattle.uses_client.specs.{Given.{LiesIfFree}, Packages.{FailsStoring, algorithm_for, expected_said, package_said, said_of}, Writing.{StoredWith}};

use crate::writing::{feed, finish, leave, open};
use cacache::env::{Clock, Env, Names};
use cacache::laws::{joining_laws, writer_laws};
use cacache::store::MemStore;
use cacache::{Integrity, Result, WriteOpts};
use serde_json::Value;

/// Stores bytes under a key by a writer, with what is said of them.
fn store_with<C: Clock, N: Names>(
    env: &mut Env<MemStore, C, N>,
    cache: &str,
    key: &str,
    opts: WriteOpts,
    data: &[u8],
) -> Result<Integrity>
    requires { IsCache cache.now env.old.store }
    ensures { SaysFit opts → StoredWith cache.now key.now opts «data».now result
        env.old.store env.new.store }
{
    joining_laws();
    let _count = data.len();
    let opened = open(env, cache, key, opts)?;
    let written = feed(env, opened, data)?;
    finish(env, key, written)
}

/// Stores a package's bytes under its key, with metadata and the size that they are to have: the key leads to an entry
/// of both, and the bytes lie there, if nothing did. Whatever it answers, all else stays. On a cache that is ready it fails
/// for memory, for a write to the writer's file, or if the entry can't be written. A file in memory only fails for want of
/// memory, but its contract doesn't say so.
pub fn install<C: Clock, N: Names>(
    env: &mut Env<MemStore, C, N>,
    cache: &str,
    key: &str,
    about: Value,
    data: &[u8],
) -> Result<Integrity>
    requires { IsCache cache.now env.old.store }
    ensures sound { IsCache cache.now env.new.store }
    ensures stored { IfOk result (λ i. i ≡ integrity_under Sha256 «data».now) }
    ensures leads { IfOk result (λ i. LeadsToEntry cache.now key.now
        (package_said (view about) (length «data».now)) i (length «data».now) env.new.store) }
    ensures content { OnOk result
        (LiesIfFree cache.now «data».now env.old.store env.new.store) }
    ensures keeps { KeepsUntouched cache.now (Some key.now) (integrity_under Sha256 «data».now)
        «data».now env.old.store env.new.store }
    ensures fails { IsReady cache.now env.old.store → IfErr result
        (FailsStoring (package_said (view about) (length «data».now)) «data».now) }
{
    let opts = WriteOpts::new().metadata(about).size(data.len());
    store_with(env, cache, key, opts, data)
}

/// The options of a package of which the integrity and the size are known.
fn expecting(expected: Integrity, size: usize) -> WriteOpts
    ensures said { (h : Hash) (hs : List Hash) → expected ≡ h ∷ hs
        → result ≡ expected_said h.algorithm size expected }
    ensures formed { IsIntegrity expected }
{
    let algorithm = expected.pick_algorithm();
    WriteOpts::new()
        .algorithm(algorithm)
        .size(size)
        .integrity(expected)
}

/// Stores a package's bytes under its key, if they meet the integrity that is expected: the key leads to an entry of it. Whatever it
/// answers, all else stays. On a cache that is ready it fails as `install` does, or since the bytes don't have the digest.
pub fn install_expected<C: Clock, N: Names>(
    env: &mut Env<MemStore, C, N>,
    cache: &str,
    key: &str,
    data: &[u8],
    expected: Integrity,
) -> Result<Integrity>
    requires { IsCache cache.now env.old.store }
    ensures sound { IsCache cache.now env.new.store }
    ensures stored { IfOk result (λ i. i ≡ expected) }
    ensures meets { OnOk result (Meets expected «data».now) }
    ensures leads { IfOk result (λ i. LeadsToEntry cache.now key.now
        (said_of expected (length «data».now)) i (length «data».now) env.new.store) }
    ensures keeps { KeepsUntouched cache.now (Some key.now) (integrity_under
        (algorithm_for expected) «data».now) «data».now env.old.store env.new.store }
    ensures fails { IsReady cache.now env.old.store → IfErr result
        (FailsStoring (said_of expected (length «data».now)) «data».now) }
{
    writer_laws(env);
    let opts = expecting(expected, data.len());
    store_with(env, cache, key, opts, data)
}

/// Begins to store a package whose integrity and size are known, and gives it up after the first bytes. All that was known
/// stays, wherever it ends.
pub fn give_up<C: Clock, N: Names>(
    env: &mut Env<MemStore, C, N>,
    cache: &str,
    key: &str,
    size: usize,
    expected: Integrity,
    first: &[u8],
) -> Result<()>
    requires { IsCache cache.now env.old.store }
    ensures leaves { LeavesKnownCache cache.now env.old.store env.new.store }
{
    joining_laws();
    let opened = open(env, cache, key, expecting(expected, size))?;
    let written = feed(env, opened, first)?;
    leave(env, written)
}
