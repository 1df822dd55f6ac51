//! What many callers see of one cache, in a user's words. Nothing is done: a world has these facts.
ghost use Rattle.uses_worlds.specs.Callers.{CrashesAreSafe, OneOfTwo, PutThenGet, ReadersNeverLie, RemovalsAreSafe};

use cacache::laws::digest_laws;
use cacache::world::World;

/// A put was answered; since it began, every other call spared its key. Then a read of the key began: the bytes that it
/// was answered have the digest of those that were put.
pub fn put_then_get(world: &World)
    ensures { PutThenGet world.now }
{
    world.stands();
    digest_laws();
}

/// If two puts alone write a key, each lookup finds the entry of one of them, or none.
pub fn one_of_two(world: &World)
    ensures { OneOfTwo world.now }
{
    world.stands();
}

/// A put, over or left on its way, did nothing, put its content, or put its content and then its entry. None of its
/// moves changes what a lookup of another key finds.
pub fn crash_safe(world: &World)
    ensures { CrashesAreSafe world.now }
{
    world.stands();
}

/// A removal by address, over or left on its way, dropped at most that content; one of a key with its content at most what
/// the key led to and its bucket. A clearing put and added nothing.
pub fn removals_are_safe(world: &World)
    ensures { RemovalsAreSafe world.now }
{
    world.stands();
}

/// Bytes that are read by a key meet the integrity of an entry of that key, which a call wrote before.
pub fn readers_never_lie(world: &World)
    ensures { ReadersNeverLie world.now }
{
    world.stands();
}
