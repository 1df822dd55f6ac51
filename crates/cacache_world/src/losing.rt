//! What a loss of power leaves of a world's disk.
ghost use Rattle.std.specs.Prelude.{◌≡◌, ◌∷◌, [], IfOk};
ghost use Rattle.cacache_history.specs.Values.{steps_of};
ghost use Rattle.cacache_loss.specs.{ChangedNames.{opening}, Moments.{after}, Running.{moment_of}};
ghost use Rattle.cacache_world.specs.Played.{LeftAfter};

use crate::outside::plant_all;
use cacache_core::bytes::Bytes;
use cacache_core::text::Text;
use cacache_disk::{Disk, Nodes};
use cacache_history::Record;
use cacache_loss::{Loss, Running};
use std::alloc::{AllocError, Global};

/// The moment after a record.
fn run_on(running: Running, happened: &Record) -> Result<Running, AllocError>
    ensures { IfOk result (λ r.
        moment_of r ≡ after (moment_of running) (steps_of (happened.now ∷ []))) }
{
    match happened {
        Record::Moved(_, luck, Some((step, answer)), _) => running.next(step, *luck, answer),
        Record::Moved(_, _, None, _) | Record::Began(_, _) | Record::Stopped(_) => Ok(running),
    }
}

/// The moment after these records, on a disk that began with all of it fixed.
fn replay(disk: Disk, records: &[Record]) -> Result<Running, AllocError>
    ensures { IfOk result (λ r.
        moment_of r ≡ after (opening disk) (steps_of records.now)) }
{
    let mut running = Running::opening(disk)?;
    for i in 0..records.len() {
        running = run_on(running, &records[i])?;
    }
    Ok(running)
}

/// The nodes that a loss leaves at the end of this history.
pub(crate) fn nodes_left(
    alloc: Global,
    cache: &str,
    outside: &[(Text, Bytes)],
    records: &[Record],
    loss: &Loss,
) -> Result<Nodes, AllocError>
    ensures { IfOk result
        (λ nodes. LeftAfter cache.now outside.now records.now loss.now nodes) }
{
    // The world was made of these files, so that only memory can be lacking now.
    let Ok(disk) = plant_all(alloc, cache, outside) else {
        return Err(AllocError);
    };
    let running = replay(disk, records)?;
    running.lose(cache, loss)
}
