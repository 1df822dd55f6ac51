//! Threads that put their own keys and look for one another's.
ghost use Rattle.std.specs.Prelude.{◌≡◌, ◌<◌};

use crate::making::{put, world_of};
use cacache::jobs::{Command, Reply};
use cacache::store::Luck;
use cacache::text::Text;
use cacache::world::{Blank, Seat, SharedWorld, Went, World};
use cacache_core::keeping::{beside, let_go};
use std::alloc::{AllocError, Global};
use std::marker::Brand;
use std::sync::ledger::Ledger;
use std::sync::{Wait, ledger};
use std::test::Fail;
use std::thread;
use std::thread::Threads;
use std::time::{Clock, Duration};

/// How often a thread looks for another's key.
const TRIES: u64 = 5000;

/// More moves than a call of these tests takes.
const MOVES: u64 = 100;

/// The key of a thread, and its content.
fn text_of(alloc: Global, caller: usize) -> Result<String, AllocError> {
    format!(in alloc; "t{caller}")
}

/// Runs a call to its end, and returns whether it has a reply.
fn runs<L: Ledger, R: Wait>(
    rt: &R,
    world: &SharedWorld<L>,
    seat: &mut Seat<L>,
    command: Command,
) -> bool {
    if world.begin(rt, seat, command).is_err() {
        return false;
    }
    for _ in 0..MOVES {
        match world.go(rt, seat, Luck::Plain) {
            Ok(Went::More) => {}
            Ok(Went::Done) => return true,
            Err(_) => return false,
        }
    }
    false
}

/// Whether a lookup found its key.
fn is_found(reply: Option<&Reply>) -> bool {
    matches!(reply, Some(Reply::LookedUp(Some(_))))
}

/// Whether a read gave this text.
fn is_read(reply: Option<&Reply>, text: &str) -> bool {
    match reply {
        Some(Reply::Read(bytes)) => bytes.as_slice() == text.as_bytes(),
        _ => false,
    }
}

/// Puts the seat's own key and gets it.
fn put_and_get<L: Ledger, R: Wait>(
    rt: &R,
    alloc: Global,
    world: &SharedWorld<L>,
    seat: &mut Seat<L>,
) -> Result<(), AllocError> {
    let own = text_of(alloc, seat.caller())?;
    let (put, own) = beside(put(alloc, own.as_str(), own.as_str()), own)?;
    runs(rt, world, seat, put);
    runs(rt, world, seat, Command::Get(Text::new(own)));
    Ok(())
}

/// Puts the seat's own key and gets it, and looks for the key of the next thread until it is there.
fn meet<L: Ledger, R: Wait + Clock>(
    rt: &R,
    alloc: Global,
    world: &SharedWorld<L>,
    seat: &mut Seat<L>,
    next: usize,
) -> Result<(), AllocError> {
    put_and_get(rt, alloc, world, seat)?;
    for _ in 0..TRIES {
        let key = Text::new(text_of(alloc, next)?);
        if !runs(rt, world, seat, Command::Find(key)) || is_found(seat.replies().last()) {
            break;
        }
        thread::sleep(rt, Duration::from_millis(1));
    }
    Ok(())
}

/// One thread's work: what came of it is in the seat.
fn met<L: Ledger, R: Wait + Clock>(
    rt: &R,
    alloc: Global,
    world: &SharedWorld<L>,
    seat: Seat<L>,
    callers: usize,
) -> Seat<L> {
    let mut seat = seat;
    let next = seat.caller().wrapping_add(1);
    let next = if next < callers { next } else { 0 };
    let _ = meet(rt, alloc, world, &mut seat, next);
    seat
}

/// Each seat's work in a thread of its own.
fn together<L: Ledger + Send + Sync, R: Threads + Wait + Clock + Sync>(
    rt: &R,
    alloc: Global,
    world: &SharedWorld<L>,
    seats: Vec<Seat<L>>,
    callers: usize,
) -> Result<Vec<Seat<L>>, AllocError> {
    thread::map_vec(
        rt,
        seats,
        &|seat: Seat<L>| met(rt, alloc, world, seat, callers),
    )
}

/// Whether a seat read its own text, and found at last what it looked for.
fn is_well<L: Ledger>(alloc: Global, seat: &Seat<L>) -> Result<bool, AllocError> {
    let own = text_of(alloc, seat.caller())?;
    Ok(is_read(seat.replies().get(1), own.as_str()) && is_found(seat.replies().last()))
}

/// How many of the seats succeeded.
fn well<L: Ledger>(alloc: Global, seats: &[Seat<L>]) -> Result<usize, AllocError> {
    let mut count: usize = 0;
    for seat in seats {
        if is_well(alloc, seat)? {
            count = count.saturating_add(1);
        }
    }
    Ok(count)
}

/// Whether a world closes.
fn closes<L: Ledger>(shared: SharedWorld<L>, seats: Vec<Seat<L>>) -> bool {
    let closed = shared.close(seats);
    let is_closed = closed.is_ok();
    let_go(closed);
    is_closed
}

/// How many threads met in a world, and whether it closes.
fn meeting<L: Ledger + Send + Sync, R: Threads + Wait + Clock + Sync>(
    rt: &R,
    alloc: Global,
    blank: ledger::Blank,
    world: World,
) -> Result<(usize, bool), AllocError>
    requires name { blank.name ≡ L.name }
    requires parts { blank.parts ≡ L.parts }
    requires each { blank.parts ≡ world.setup.callers }
    requires some { 0 < blank.parts }
{
    let (shared, seats) = match SharedWorld::<L>::new(Blank::new(blank), world) {
        Ok(both) => both,
        Err(world) => {
            let_go(world);
            return Err(AllocError);
        }
    };
    let callers = seats.len();
    let (seats, shared) = beside(together(rt, alloc, &shared, seats, callers), shared)?;
    let well = well(alloc, seats.as_slice());
    let is_closed = closes(shared, seats);
    Ok((well?, is_closed))
}

#[test]
fn two_threads_find_each_others_key(rt: HostRuntime) -> Result<(), Fail> {
    let world = world_of(rt.alloc(), 2)?;
    let came = meeting::<Brand, HostRuntime>(&rt, rt.alloc(), ledger::Blank::new(2), world)?;
    assert_eq!(rt; came, (2, true));
    Ok(())
}

#[test]
fn a_world_closes_after_four_threads(rt: HostRuntime) -> Result<(), Fail> {
    let world = world_of(rt.alloc(), 4)?;
    let came = meeting::<Brand, HostRuntime>(&rt, rt.alloc(), ledger::Blank::new(4), world)?;
    assert_eq!(rt; came, (4, true));
    Ok(())
}
