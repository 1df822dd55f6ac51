//! How many entries a world lists.
ghost use Rattle.std.specs.Prelude.{◌≡◌, IfOk, length};
ghost use Rattle.cacache_shared.specs.Storms.{HasItems, IsListed, ListsEntries};

use crate::outcome::StormFault;
use cacache_calls::{Command, Items, Reply};
use cacache_core::keeping::let_go;
use cacache_disk::Luck;
use cacache_world::{Move, World};

/// How many entries the world lists, asked by its first caller.
pub(crate) fn live_entries(world: World) -> Result<u64, StormFault>
    ensures { IfOk result (λ n. ListsEntries world n) }
{
    let mut world = world;
    let listed = list(&mut world);
    world.stands();
    let_go(world);
    count_entries(listed?)
}

/// The reply of a listing that no step of another caller comes between.
#[tactic(auto, using(crate::proofs::Storms::listing_begins))]
fn list(world: &mut World) -> Result<Reply, StormFault>
    ensures { IfOk result (λ reply. IsListed world.old reply world.new) }
{
    world.begin(0, Command::Ls)?;
    for _ in 0..u64::MAX {
        match world.move_one(0, Luck::Plain)? {
            Move::More => {}
            Move::Done(reply) => return Ok(reply),
        }
    }
    Err(StormFault::Mismatch)
}

/// How many entries a listing has.
fn count_entries(reply: Reply) -> Result<u64, StormFault>
    ensures { IfOk result (λ n. HasItems reply n) }
{
    match reply {
        Reply::Listed(items) => count_of(&items),
        Reply::Refused(error) => Err(StormFault::Failed(error)),
        other => {
            let_go(other);
            Err(StormFault::Mismatch)
        }
    }
}

/// How many items there are, if each is an entry.
fn count_of(items: &Items) -> Result<u64, StormFault>
    ensures { IfOk result (λ n. n ≡ length items.now) }
{
    for item in items.as_slice() {
        if item.is_err() {
            return Err(StormFault::Mismatch);
        }
    }
    Ok(items.as_slice().len() as u64)
}
