//! Many threads at one world, a seat each.
ghost use Rattle.std.specs.Prelude.{◌≡◌, ◌<◌, Err, IfOk};
ghost use Rattle.cacache_shared.specs.{Storms.{IsCounted, IsOutOfRange}, declared.outcome.StormFault.TheVariants.{Count}};

use crate::blank::Blank;
use crate::counting::all_moves;
use crate::listing::live_entries;
use crate::outcome::{Storm, StormFault};
use crate::running::{run_all, seats_of};
use crate::shared::SharedWorld;
use cacache_core::text::Text;
use cacache_jobs::Gate;
use cacache_world::{World, WorldFault};
use std::alloc::Global;
use std::marker::Brand;
use std::sync::ledger::Ledger;
use std::sync::{Wait, ledger};
use std::thread::Threads;
use std::time::Clock;

/// How many threads there may be.
const MOST_THREADS: u64 = 64;

/// How many keys there may be.
const MOST_KEYS: u64 = 1000;

/// The cache's folder.
const CACHE: &str = "c";

/// Each of so many threads, 1 to 64, puts and gets each of its keys, 1 to 1000, in one new world. The gate is asked
/// before each key; the turn is the thread's number times `keys` and then the key's. It waits until all threads are
/// done, and for as long as the gate says `NotYet`.
///
/// # Errors
///
/// `Count` if a number is out of range. `Quit` if the gate says so, `Failed` if a call fails, `World` if the world
/// refuses an event, and `Mismatch` if a thread gets other bytes than it put or no memory to read or list, or a seat
/// doesn't agree with the world's records: the fault of the first thread with one.
pub fn storm<R: Threads + Wait + Clock + AllocGlobal + Sync, G: Gate + Sync>(
    rt: &R,
    threads: u64,
    keys: u64,
    gate: &G,
) -> Result<Storm, StormFault>
    ensures count { IsOutOfRange threads keys → result ≡ Err Count }
    ensures counted { IfOk result IsCounted }
{
    if threads == 0 || threads > MOST_THREADS || keys == 0 || keys > MOST_KEYS {
        return Err(StormFault::Count);
    }
    let alloc = rt.alloc();
    let cache = Text::from_str(alloc, CACHE)?;
    let world = World::new(alloc, threads as usize, cache, Vec::new(alloc))?;
    storm_in::<Brand, R, G>(rt, alloc, ledger::Blank::new(threads), world, keys, gate)
}

/// A storm in a world that has no records yet.
fn storm_in<L: Ledger + Send + Sync, R: Threads + Wait + Clock + Sync, G: Gate + Sync>(
    rt: &R,
    alloc: Global,
    blank: ledger::Blank,
    world: World,
    keys: u64,
    gate: &G,
) -> Result<Storm, StormFault>
    requires name { blank.name ≡ L.name }
    requires parts { blank.parts ≡ L.parts }
    requires each { blank.parts ≡ world.setup.callers }
    requires some { 0 < blank.parts }
    ensures { IfOk result IsCounted }
{
    let Ok((shared, seats)) = SharedWorld::<L>::new(Blank::new(blank), world) else {
        return Err(StormFault::World(WorldFault::OutOfMemory));
    };
    let ended = run_all(rt, alloc, &shared, seats, keys, gate)?;
    let seats = seats_of(alloc, ended)?;
    let Ok(world) = shared.close(seats) else {
        return Err(StormFault::Mismatch);
    };
    world.stands();
    let moves = all_moves(&world);
    let live = live_entries(world)?;
    Ok(Storm { moves, live })
}
