//! Packages that are stored and removed.
ghost use Rattle.std.specs.Prelude.{◌≡◌, List, None, Some, IfOk, IfErr, OnOk};
ghost use Rattle.cacache.specs.{Integrities.{Hash, Sha256, integrity_under}, Laws.{IsCache, HasKey, LacksKey, Grows, IsExcused, DontClash, KeepsUntouched, KeepsOthers, FailsForMemory, IsReady, NamesFolder}};
ghost use Rattle.uses_client.specs.Given.{KeepsOlder};

use crate::reading::describe;
use cacache::env::{Clock, Env, Names};
use cacache::laws::{after_remove, after_write, joining_laws};
use cacache::store::MemStore;
use cacache::{Algorithm, Integrity, Metadata, Result};

/// Stores bytes under a key, and changes nothing else. Fails only for lack of memory, or because a step fails. In a cache that
/// is ready, no step fails. A cache is ready if its path names a folder and no temporary file is left in it.
pub fn store<C: Clock, N: Names>(
    env: &mut Env<MemStore, C, N>,
    cache: &str,
    key: &str,
    data: &[u8],
) -> Result<Integrity>
    requires { IsCache cache.now env.old.store }
    ensures sound { IsCache cache.now env.new.store }
    ensures stored { IfOk result (λ i. (i ≡ integrity_under Sha256 «data».now)
        × HasKey cache.now key.now i «data».now env.new.store) }
    ensures keeps { KeepsUntouched cache.now (Some key.now) (integrity_under Sha256 «data».now)
        «data».now env.old.store env.new.store }
    ensures grows { Grows env.old.store env.new.store }
    ensures fails { IfErr result (λ e. IsExcused e env.old.store env.new.store) }
    ensures ready { IsReady cache.now env.old.store → OnOk result (IsReady cache.now env.new.store) }
    ensures memory { IsReady cache.now env.old.store → FailsForMemory result }
{
    let written = cacache::write_sync(env, cache, key, data);
    after_write(env, Algorithm::Sha256, cache, key, data, &written);
    written
}

/// Stores other bytes under a key. The older ones are still there, by their integrity.
pub fn replace<C: Clock, N: Names>(
    env: &mut Env<MemStore, C, N>,
    cache: &str,
    key: &str,
    data: &[u8],
) -> Result<Integrity>
    requires { IsCache cache.now env.old.store }
    ensures sound { IsCache cache.now env.new.store }
    ensures later { IfOk result (λ i. (i ≡ integrity_under Sha256 «data».now)
        × HasKey cache.now key.now i «data».now env.new.store) }
    ensures older { KeepsOlder cache.now key.now «data».now env.old.store env.new.store }
    ensures fails { IfErr result (λ e. IsExcused e env.old.store env.new.store) }
    ensures memory { IsReady cache.now env.old.store → FailsForMemory result }
{
    store(env, cache, key, data)
}

/// The integrities of two packages.
#[derive(Drop)]
pub struct Installed {
    pub first: Integrity,
    pub second: Integrity,
}

/// Stores two keys, one after the other: afterwards both lead to their bytes. It fails as `store` does. What the first call
/// stored stays if the second one fails.
pub fn install_two<C: Clock, N: Names>(
    env: &mut Env<MemStore, C, N>,
    cache: &str,
    first_key: &str,
    first: &[u8],
    second_key: &str,
    second: &[u8],
) -> Result<Installed>
    requires cache { IsCache cache.now env.old.store }
    requires keys { first_key.now ≡ second_key.now → ⊥ }
    requires contents { (i : List Hash) → i ≡ integrity_under Sha256 first.now
        → DontClash i first.now (integrity_under Sha256 second.now) second.now }
    ensures sound { IsCache cache.now env.new.store }
    ensures first { IfOk result (λ both.
        HasKey cache.now first_key.now both.first first.now env.new.store) }
    ensures second { IfOk result (λ both.
        HasKey cache.now second_key.now both.second second.now env.new.store) }
    ensures fails { IfErr result (λ e. IsExcused e env.old.store env.new.store) }
    ensures memory { IsReady cache.now env.old.store → FailsForMemory result }
{
    joining_laws();
    let first = store(env, cache, first_key, first)?;
    let second = store(env, cache, second_key, second)?;
    Ok(Installed { first, second })
}

/// Stores bytes under a key, and tries once more if that fails. An error is the second one's, and says that a step failed, or
/// memory. Nothing says that it tries again: a call that is like `store` meets these clauses too.
pub fn retry_install<C: Clock, N: Names>(
    env: &mut Env<MemStore, C, N>,
    cache: &str,
    key: &str,
    data: &[u8],
) -> Result<Integrity>
    requires { IsCache cache.now env.old.store }
    ensures sound { IsCache cache.now env.new.store }
    ensures stored { IfOk result (λ i. (i ≡ integrity_under Sha256 «data».now)
        × HasKey cache.now key.now i «data».now env.new.store) }
    ensures keeps { KeepsUntouched cache.now (Some key.now) (integrity_under Sha256 «data».now)
        «data».now env.old.store env.new.store }
    ensures fails { IfErr result (λ e. IsExcused e env.old.store env.new.store) }
{
    joining_laws();
    match store(env, cache, key, data) {
        Ok(integrity) => Ok(integrity),
        Err(_) => store(env, cache, key, data),
    }
}

/// Removes a key, and leaves all else. Its bytes are still there, by their integrity. If the cache's path names a folder, only
/// memory fails it, and elsewhere also a step of its own.
pub fn uninstall<C: Clock, N: Names>(
    env: &mut Env<MemStore, C, N>,
    cache: &str,
    key: &str,
) -> Result<()>
    requires { IsCache cache.now env.old.store }
    ensures sound { IsCache cache.now env.new.store }
    ensures gone { OnOk result (LacksKey cache.now key.now env.new.store) }
    ensures others { KeepsOthers cache.now key.now env.old.store env.new.store }
    ensures grows { Grows env.old.store env.new.store }
    ensures fails { IfErr result (λ e. IsExcused e env.old.store env.new.store) }
    ensures memory { NamesFolder cache.now → FailsForMemory result }
{
    let removed = cacache::remove_sync(env, cache, key);
    after_remove(env, cache, key, &removed);
    removed
}

/// Removes a key, and looks it up: there is no entry. All else stays. It fails as `uninstall` does.
pub fn uninstall_and_describe<C: Clock, N: Names>(
    env: &mut Env<MemStore, C, N>,
    cache: &str,
    key: &str,
) -> Result<Option<Metadata>>
    requires { IsCache cache.now env.old.store }
    ensures sound { IsCache cache.now env.new.store }
    ensures gone { IfOk result (λ found. found ≡ None) }
    ensures others { KeepsOthers cache.now key.now env.old.store env.new.store }
    ensures fails { IfErr result (λ e. IsExcused e env.old.store env.new.store) }
    ensures memory { NamesFolder cache.now → FailsForMemory result }
{
    joining_laws();
    uninstall(env, cache, key)?;
    describe(env, cache, key)
}
