//! The threads of a storm, one for each seat.
use crate::outcome::StormFault;
use crate::seat::Seat;
use crate::shared::SharedWorld;
use crate::turns::run_keys;
use cacache_core::keeping::{beside, let_go};
use cacache_jobs::Gate;
use cacache_world::WorldFault;
use std::alloc::{AllocError, Global};
use std::sync::Wait;
use std::sync::ledger::Ledger;
use std::thread;
use std::thread::Threads;
use std::time::Clock;

/// What a thread hands back: its seat, or why it ended early.
#[derive(Drop)]
pub(crate) enum Ended<L: Ledger> {
    /// It put and got all its keys.
    Well(Seat<L>),
    /// It ended early.
    Early(StormFault),
}

/// Runs each seat's keys in a thread of its own. What the threads share and hand over is proved to
/// cross here, where little else is known.
pub(crate) fn run_all<L: Ledger + Send + Sync, R: Threads + Wait + Clock + Sync, G: Gate + Sync>(
    rt: &R,
    alloc: Global,
    world: &SharedWorld<L>,
    seats: Vec<Seat<L>>,
    keys: u64,
    gate: &G,
) -> Result<Vec<Ended<L>>, AllocError> {
    thread::map_vec(
        rt,
        seats,
        &|seat: Seat<L>| run(rt, alloc, world, seat, keys, gate),
    )
}

/// One thread's work.
fn run<L: Ledger, R: Wait + Clock, G: Gate>(
    rt: &R,
    alloc: Global,
    world: &SharedWorld<L>,
    seat: Seat<L>,
    keys: u64,
    gate: &G,
) -> Ended<L> {
    let mut seat = seat;
    match run_keys(rt, alloc, world, &mut seat, keys, gate) {
        Ok(()) => Ended::Well(seat),
        Err(fault) => {
            let_go(seat);
            Ended::Early(fault)
        }
    }
}

/// The seats that came back, or the first fault.
pub(crate) fn seats_of<L: Ledger>(
    alloc: Global,
    all: Vec<Ended<L>>,
) -> Result<Vec<Seat<L>>, StormFault> {
    let mut seats = Vec::new(alloc);
    for ended in all {
        let (seat, so_far) = beside(seat_of(ended), seats)?;
        seats = so_far;
        if seats.push(seat).is_err() {
            return Err(StormFault::World(WorldFault::OutOfMemory));
        }
    }
    Ok(seats)
}

/// The seat that came back, or the fault.
fn seat_of<L: Ledger>(ended: Ended<L>) -> Result<Seat<L>, StormFault> {
    match ended {
        Ended::Well(seat) => Ok(seat),
        Ended::Early(fault) => Err(fault),
    }
}
