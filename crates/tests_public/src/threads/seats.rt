//! A seat of one thread.
ghost use Rattle.std.specs.Prelude.{◌≡◌};

use crate::making::{put, world_of};
use cacache::errors::{Error, Fault};
use cacache::jobs::{Command, Reply};
use cacache::store::Luck;
use cacache::world::{Blank, Seat, SharedWorld, Went, World};
use cacache_core::keeping::let_go;
use std::alloc::{AllocError, Global};
use std::marker::Brand;
use std::sync::ledger::Ledger;
use std::sync::{Wait, ledger};
use std::test::Fail;
use uses_worlds::close_after_reads;

/// Whether a reply says that the device failed.
fn is_device(reply: Option<&Reply>) -> bool {
    match reply {
        Some(Reply::Refused(Error::IoError(fault, _))) => *fault == Fault::Device,
        _ => false,
    }
}

/// Whether the command's first move fails with the device's fault, and the seat has that reply alone.
fn fails_at_once<L: Ledger, R: Wait>(
    rt: &R,
    shared: &SharedWorld<L>,
    seat: &mut Seat<L>,
    command: Command,
) -> bool {
    if shared.begin(rt, seat, command).is_err() {
        return false;
    }
    match shared.go(rt, seat, Luck::Fail(Fault::Device, None)) {
        Ok(Went::Done) => {
            seat.records() == 2 && seat.replies().len() == 1 && is_device(seat.replies().last())
        }
        _ => false,
    }
}

/// Whether a put in the first of the seats fails so.
fn put_fails<L: Ledger, R: Wait>(
    rt: &R,
    alloc: Global,
    shared: &SharedWorld<L>,
    seats: &mut Vec<Seat<L>>,
) -> Result<bool, AllocError> {
    let command = put(alloc, "a", "a")?;
    Ok(match seats.get_mut(0) {
        Some(seat) => fails_at_once(rt, shared, seat, command),
        None => {
            let_go(command);
            false
        }
    })
}

/// How many records there are after the close of a world, if it closes.
fn records_of<L: Ledger>(shared: SharedWorld<L>, seats: Vec<Seat<L>>) -> usize {
    match close_after_reads(shared, seats) {
        Ok(world) => {
            let records = world.history().len();
            let_go(world);
            records
        }
        Err(both) => {
            let_go(both);
            0
        }
    }
}

/// Whether a put that fails in a world of one caller says so, and how many records there are after the close, if it
/// closes.
fn failed_put<L: Ledger, R: Wait>(
    rt: &R,
    alloc: Global,
    blank: ledger::Blank,
    world: World,
) -> Result<(bool, usize), AllocError>
    requires name { blank.name ≡ L.name }
    requires parts { blank.parts ≡ L.parts }
    requires each { blank.parts ≡ world.setup.callers }
    requires one { blank.parts ≡ 1 }
{
    let (shared, mut seats) = match SharedWorld::<L>::new(Blank::new(blank), world) {
        Ok(both) => both,
        Err(world) => {
            let_go(world);
            return Err(AllocError);
        }
    };
    let fails = put_fails(rt, alloc, &shared, &mut seats);
    let records = records_of(shared, seats);
    Ok((fails?, records))
}

#[test]
fn go_moves_with_the_luck(rt: HostRuntime) -> Result<(), Fail> {
    let world = world_of(rt.alloc(), 1)?;
    let came = failed_put::<Brand, HostRuntime>(&rt, rt.alloc(), ledger::Blank::new(1), world)?;
    assert_eq!(rt; came, (true, 2));
    Ok(())
}
