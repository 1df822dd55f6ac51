//! Packages that are read.
ghost use Rattle.std.specs.Prelude.{◌≡◌, IfErr, IfOk};
ghost use Rattle.cacache.specs.{Histories.{IsStanding}, Laws.{IsCache, LacksKey, LeavesKnownCache, NamesFolder, IsExcused, FailsForMemory, GivesNoEntry, KeyLiesWhole, tree_of}};
ghost use Rattle.uses_client.specs.Given.{ContentFailsForMemory, Describes, GivesContent, GivesKey, GivesLinked, KeyFailsForMemory, MissesKey, TellsWhetherOpen};

use cacache::env::{Clock, Env, Names};
use cacache::laws::{
    after_find, after_read, after_read_hash, after_read_left, cache_laws, standing_laws,
    success_laws,
};
use cacache::store::MemStore;
use cacache::{Integrity, Metadata, Result, SyncReader};

/// The bytes under a key: whole ones, whatever lies there, and of a link those that its target shows. If the cache's path names a folder, only memory fails the read of
/// bytes that are there, and a key that leads to nothing is `EntryNotFound`, or memory was refused. Of damaged bytes it isn't
/// said here which error comes.
pub fn fetch<C: Clock, N: Names>(
    env: &mut Env<MemStore, C, N>,
    cache: &str,
    key: &str,
) -> Result<Vec<u8>>
    requires { IsCache cache.now env.old.store }
    ensures leaves { LeavesKnownCache cache.now env.old.store env.new.store }
    ensures same { tree_of env.new.store ≡ tree_of env.old.store }
    ensures gives { GivesKey cache.now key.now result env.old.store env.new.store }
    ensures lacks { LacksKey cache.now key.now env.old.store
        → GivesNoEntry cache.now key.now result env.old.store env.new.store }
    ensures whole { IfOk result (λ v. KeyLiesWhole cache.now key.now env.old.store v.items) }
    ensures linked { GivesLinked cache.now key.now result env.old.store }
    ensures memory { KeyFailsForMemory cache.now key.now result env.old.store }
    ensures missing { MissesKey cache.now key.now result env.old.store }
{
    let read = cacache::read_sync(env, cache, key);
    after_read(env, cache, key, &read);
    read
}

/// The bytes under an integrity.
pub(crate) fn fetch_hash<C: Clock, N: Names>(
    env: &mut Env<MemStore, C, N>,
    cache: &str,
    sri: &Integrity,
) -> Result<Vec<u8>>
    requires { IsCache cache.now env.old.store }
    ensures leaves { LeavesKnownCache cache.now env.old.store env.new.store }
    ensures same { tree_of env.new.store ≡ tree_of env.old.store }
    ensures gives { GivesContent cache.now sri.now result env.old.store env.new.store }
    ensures memory { ContentFailsForMemory cache.now sri.now result env.old.store }
{
    let read = cacache::read_hash_sync(env, cache, sri);
    after_read_hash(env, cache, sri, &read);
    read
}

/// Whether a content can be opened to be read in pieces: an error says why there are no bytes under its integrity, or that
/// memory was refused.
pub fn try_opening<C: Clock, N: Names>(
    env: &mut Env<MemStore, C, N>,
    cache: &str,
    sri: Integrity,
) -> Result<()>
    requires { IsCache cache.now env.old.store }
    ensures { NamesFolder cache.now → TellsWhetherOpen cache.now sri result env.old.store }
{
    success_laws();
    standing_laws();
    let _address = sri.address();
    let opened = SyncReader::open_hash(env, cache, sri);
    cache_laws(&env.store);
    match opened {
        Ok(_reader) => Ok(()),
        Err(error) => Err(error),
    }
}

/// The bytes under a key of a store about which no more is known than that everything is where it may be, as after a loss of
/// power. If the cache's path names a folder, only memory fails the read of bytes that are there.
pub fn fetch_left<C: Clock, N: Names>(
    env: &mut Env<MemStore, C, N>,
    cache: &str,
    key: &str,
) -> Result<Vec<u8>>
    requires { IsStanding cache.now env.old.store }
    ensures standing { IsStanding cache.now env.new.store }
    ensures same { tree_of env.new.store ≡ tree_of env.old.store }
    ensures gives { GivesKey cache.now key.now result env.old.store env.new.store }
    ensures memory { KeyFailsForMemory cache.now key.now result env.old.store }
{
    success_laws();
    let left = cacache::read_sync(env, cache, key);
    after_read_left(env, cache, key, &left);
    left
}

/// What the index says of a key. If the cache's path names a folder, only memory fails it, and elsewhere also a step of its
/// own.
pub fn describe<C: Clock, N: Names>(
    env: &mut Env<MemStore, C, N>,
    cache: &str,
    key: &str,
) -> Result<Option<Metadata>>
    requires { IsCache cache.now env.old.store }
    ensures leaves { LeavesKnownCache cache.now env.old.store env.new.store }
    ensures same { tree_of env.new.store ≡ tree_of env.old.store }
    ensures finds { IfOk result (Describes cache.now key.now env.old.store) }
    ensures fails { IfErr result (λ e. IsExcused e env.old.store env.new.store) }
    ensures memory { NamesFolder cache.now → FailsForMemory result }
{
    let found = cacache::metadata_sync(env, cache, key);
    after_find(env, cache, key, &found);
    found
}
