//! What threads that shared a world were answered, in a user's words.
ghost use Rattle.std.specs.Prelude.{◌≡◌, All, OnOk};
ghost use Rattle.uses_worlds.specs.Callers.{ReadIsRight};

use cacache::laws::seat_laws;
use cacache::world::{Seat, SharedWorld, World};
use std::sync::ledger::Ledger;

/// A world that was new when threads came to share it is closed. Bytes that a thread which read only one content was
/// answered meet its integrity.
pub fn close_after_reads<L: Ledger>(
    shared: SharedWorld<L>,
    seats: Vec<Seat<L>>,
) -> Result<World, (SharedWorld<L>, Vec<Seat<L>>)>
    ensures { shared.from ≡ 0 → OnOk result (All ReadIsRight seats.items) }
{
    let world = shared.close(seats)?;
    world.stands();
    seat_laws();
    Ok(world)
}
