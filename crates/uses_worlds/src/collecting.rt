//! What a collection keeps while others write, in a user's words. Nothing is done: a world has these facts.
ghost use Rattle.uses_worlds.specs.Callers.{CollectionsKeepPuts};

use cacache::laws::meanwhile_laws;
use cacache::world::World;

/// A put was answered, then a listing of the index began, and it answered no error. Since the put began, every other
/// call spared its key, and no call removed a content that the listing names, as a collection doesn't: the key leads to
/// the put's entry, and its content is there, whatever others wrote meanwhile.
pub fn collections_are_safe(world: &World)
    ensures { CollectionsKeepPuts world.now }
{
    world.stands();
    meanwhile_laws();
}
