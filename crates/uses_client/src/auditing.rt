//! Packages that are listed and audited.
ghost use Rattle.std.specs.Prelude.{◌≡◌, ◌⊎◌, IfOk, IfErr, Ok, Err, false, map};
ghost use Rattle.cacache.specs.Laws.{IsCache, FailsForMemory, FailsListing, In, LeavesKnownCache, AreAllEntries, ListedEntries, OutOfMemory, tree_of};
ghost use Rattle.uses_client.specs.Packages.{AreRight, IsRight, entries_in};

use cacache::env::{Clock, Env, Names};
use cacache::errors::Error;
use cacache::jobs::{Command, Found, Reply, call};
use cacache::laws::{after_list, after_read_hash};
use cacache::store::MemStore;
use cacache::{Integrity, Result};
use std::alloc::Global;

/// The entries among the items, unless one is an error, which is reported then.
fn entries(alloc: Global, items: Vec<std::result::Result<Found, Error>>) -> Result<Vec<Found>>
    ensures all { IfOk result (λ entries. items.items ≡ map Ok entries.items) }
    ensures fails { IfErr result (λ e. (e ≡ OutOfMemory) ⊎ In (Err e) items.items) }
{
    let mut entries = Vec::new(alloc);
    for item in items {
        entries.push(item?)?;
    }
    Ok(entries)
}

/// A listing's reply, and what it says.
fn ask<C: Clock, N: Names>(env: &mut Env<MemStore, C, N>, cache: &str) -> Reply
    requires { IsCache cache.now env.old.store }
    ensures { ListedEntries cache.now result env.old.store env.new.store }
{
    let reply = call(env, cache, Command::Ls, 0);
    after_list(env, cache, &reply);
    reply
}

/// The entries that keys lead to, all of them. An error says that a step failed, as that at an index that isn't there, that
/// there were more than 2^63 names, or that memory was refused.
pub fn list<C: Clock, N: Names>(env: &mut Env<MemStore, C, N>, cache: &str) -> Result<Vec<Found>>
    requires { IsCache cache.now env.old.store }
    ensures leaves { LeavesKnownCache cache.now env.old.store env.new.store }
    ensures same { tree_of env.new.store ≡ tree_of env.old.store }
    ensures entries { IfOk result (λ found. AreAllEntries cache.now env.old.store found.items) }
    ensures fails { IfErr result (λ e. FailsListing e env.old.store env.new.store) }
{
    let reply = ask(env, cache);
    match reply {
        Reply::Listed(items) => entries(env.alloc, items.into_vec()),
        Reply::Refused(error) => Err(error),
        _ => unreachable!(),
    }
}

/// No, unless the error is out of memory, which says nothing about what lies there.
fn no_unless_memory(error: Error) -> Result<bool>
    ensures no { IfOk result (λ told. (told ≡ false) × (error ≡ OutOfMemory → ⊥)) }
    ensures memory { FailsForMemory result }
{
    match error {
        Error::OutOfMemory => Err(Error::OutOfMemory),
        _other => Ok(false),
    }
}

/// Whether whole bytes lie under an integrity. A no says that none do, if the cache's path names a folder. Only memory
/// fails it.
pub fn is_whole<C: Clock, N: Names>(
    env: &mut Env<MemStore, C, N>,
    cache: &str,
    sri: &Integrity,
) -> Result<bool>
    requires { IsCache cache.now env.old.store }
    ensures leaves { LeavesKnownCache cache.now env.old.store env.new.store }
    ensures same { tree_of env.new.store ≡ tree_of env.old.store }
    ensures right { IfOk result (IsRight cache.now sri.now env.old.store) }
    ensures fails { FailsForMemory result }
{
    let read = cacache::read_hash_sync(env, cache, sri);
    after_read_hash(env, cache, sri, &read);
    match read {
        Ok(_bytes) => Ok(true),
        Err(error) => no_unless_memory(error),
    }
}

/// An entry, and whether whole bytes lie under its integrity.
#[derive(Drop)]
pub struct Verdict {
    pub entry: Found,
    pub whole: bool,
}

/// Says of each entry that a key leads to whether its bytes are whole. It fails as `list` does.
pub fn audit<C: Clock, N: Names>(env: &mut Env<MemStore, C, N>, cache: &str) -> Result<Vec<Verdict>>
    requires { IsCache cache.now env.old.store }
    ensures sound { IsCache cache.now env.new.store }
    ensures same { tree_of env.new.store ≡ tree_of env.old.store }
    ensures all { IfOk result (λ verdicts.
        AreAllEntries cache.now env.old.store (entries_in verdicts.items)) }
    ensures right { IfOk result (λ verdicts. AreRight cache.now env.old.store verdicts.items) }
    ensures fails { IfErr result (λ e. FailsListing e env.old.store env.new.store) }
{
    let entries = list(env, cache)?;
    let mut verdicts = Vec::new(env.alloc);
    for entry in entries {
        let whole = is_whole(env, cache, &entry.as_metadata().integrity)?;
        verdicts.push(Verdict { entry, whole })?;
    }
    Ok(verdicts)
}
