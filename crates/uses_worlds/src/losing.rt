//! What is read after a loss of power, in a user's words.
ghost use Rattle.std.specs.Prelude.{◌≡◌, IfOk, IfErr};
ghost use Rattle.cacache.specs.{Histories.{IsStanding, LeftBy, LeftRead, LeftWritten}, Integrities.{Sha256}, Laws.{OutOfMemory, tree_of}};
ghost use Rattle.uses_worlds.specs.Losses.{GivesWritten, GoesOn, LinkSurvives, LinkedSurvives, SomeSurvive, Survives, SurvivesAlone};

use cacache::env::{Clock, Env, Names};
use cacache::laws::{
    after_read_left, after_write_left, digest_laws, durable_cases, durable_laws, link_losses,
    loss_results,
};
use cacache::store::MemStore;
use cacache::world::{Loss, World};
use cacache::{Algorithm, Error, Integrity, Result, read_sync, write_sync};

/// An environment that begins with what is left of a world's disk if the power goes now.
fn begun<C: Clock, N: Names>(
    world: &World,
    loss: &Loss,
    clock: C,
    names: N,
) -> Result<Env<MemStore, C, N>>
    ensures tree { IfOk result (λ env. LeftBy world.now loss.now (tree_of env.store)) }
    ensures memory { IfErr result (λ e. e ≡ OutOfMemory) }
{
    let Ok(disk) = world.lose(loss) else {
        return Err(Error::OutOfMemory);
    };
    let store = MemStore::of(world.allocator(), &disk)?;
    match Env::new(world.allocator(), store, clock, names, "/") {
        Ok(env) => Ok(env),
        Err(_) => Err(Error::OutOfMemory),
    }
}

/// Reads the key from a store about which no more is known than that everything is where it may be.
fn read_left<C: Clock, N: Names>(
    env: &mut Env<MemStore, C, N>,
    cache: &str,
    key: &str,
) -> Result<Vec<u8>>
    ensures { IsStanding cache.now env.old.store
        → LeftRead cache.now key.now result env.old.store env.new.store }
{
    let read = read_sync(env, cache, key);
    after_read_left(env, cache, key, &read);
    read
}

/// The power goes in a world, and the key is read from what is left of its disk. Only memory fails the read of what a
/// durable put stored.
pub fn survives<C: Clock, N: Names>(
    world: &World,
    loss: &Loss,
    key: &str,
    clock: C,
    names: N,
) -> Result<Vec<u8>>
    ensures left { Survives world.now loss.now key.now result }
    ensures alone { SurvivesAlone world.now key.now result }
{
    world.stands();
    loss_results();
    let mut env = begun(world, loss, clock, names)?;
    read_left(&mut env, world.cache(), key)
}

/// The power goes in a world, and a key is read that was put durably when a link may have been at the content's
/// address.
pub fn link_survives<C: Clock, N: Names>(
    world: &World,
    loss: &Loss,
    key: &str,
    clock: C,
    names: N,
) -> Result<Vec<u8>>
    ensures link { LinkSurvives world.now key.now result }
    ensures any { LinkedSurvives world.now key.now result }
{
    world.stands();
    loss_results();
    link_losses();
    let mut env = begun(world, loss, clock, names)?;
    read_left(&mut env, world.cache(), key)
}

/// Writes a key of such a store.
fn write_left<C: Clock, N: Names>(
    env: &mut Env<MemStore, C, N>,
    cache: &str,
    key: &str,
    data: &[u8],
) -> Result<Integrity>
    ensures { IsStanding cache.now env.old.store
        → LeftWritten Sha256 cache.now key.now «data».now result env.old.store env.new.store }
{
    let written = write_sync(env, cache, key, data);
    after_write_left(env, Algorithm::Sha256, cache, key, data, &written);
    written
}

/// What was read after a loss of power: a key that was written since then, and one from before.
#[derive(Drop)]
pub struct Reads {
    pub since: Vec<u8>,
    pub before: Vec<u8>,
}

/// The power goes in a world. In what is left of its disk a key is written and read, and then a key that was put before.
/// If no temporary file is left there, only memory fails this.
pub fn goes_on<C: Clock, N: Names>(
    world: &World,
    loss: &Loss,
    written: &str,
    data: &[u8],
    key: &str,
    clock: C,
    names: N,
) -> Result<Reads>
    ensures since { GivesWritten «data».now result }
    ensures before { GoesOn world.now loss.now written.now key.now result }
{
    world.stands();
    loss_results();
    digest_laws();
    let cache = world.cache();
    let mut env = begun(world, loss, clock, names)?;
    write_left(&mut env, cache, written, data)?;
    let since = read_left(&mut env, cache, written)?;
    let before = read_left(&mut env, cache, key)?;
    Ok(Reads { since, before })
}

/// What `survives` asks, that nobody appended after the put's entry, is so in some history: at each cache with a text
/// that names a folder, one durable put may be alone, and whatever goes elsewhere after it, each loss leaves its
/// bytes.
pub fn some_survive()
    ensures { SomeSurvive }
{
    durable_cases();
    durable_laws();
    loss_results();
}
