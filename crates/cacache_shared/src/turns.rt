//! What one thread of a storm does.
use crate::outcome::StormFault;
use crate::seat::{Seat, Went};
use crate::shared::SharedWorld;
use cacache_calls::{Command, Options, Put, Reply};
use cacache_core::bytes::Bytes;
use cacache_core::integrity::Algorithm;
use cacache_core::keeping::let_go;
use cacache_core::text::Text;
use cacache_disk::Luck;
use cacache_jobs::{Gate, Pass};
use std::alloc::{AllocError, Global};
use std::sync::Wait;
use std::sync::ledger::Ledger;
use std::thread;
use std::time::{Clock, Duration};

/// How long a thread waits until it asks a gate again, in milliseconds.
const PAUSE: u64 = 1;

/// When the entries of a storm are made, in milliseconds.
const MOMENT: u128 = 0;

/// Puts and gets each of a seat's keys, and asks the gate before each: the keys of all threads are
/// numbered one after the other.
pub(crate) fn run_keys<L: Ledger, R: Wait + Clock, G: Gate>(
    rt: &R,
    alloc: Global,
    world: &SharedWorld<L>,
    seat: &mut Seat<L>,
    keys: u64,
    gate: &G,
) -> Result<(), StormFault> {
    let first = keys.saturating_mul(seat.caller() as u64);
    for key in 0..keys {
        wait_at(rt, gate, first.saturating_add(key))?;
        let text = format!(in alloc; "t{}k{key}", seat.caller())?;
        put_and_get(rt, alloc, world, seat, text.as_str())?;
    }
    Ok(())
}

/// Waits until the gate lets a turn through.
fn wait_at<R: Wait + Clock, G: Gate>(rt: &R, gate: &G, turn: u64) -> Result<(), StormFault> {
    for _ in rt.forever() {
        match gate.pass(turn) {
            Pass::Go => return Ok(()),
            Pass::NotYet => thread::sleep(rt, Duration::from_millis(PAUSE)),
            Pass::Quit => return Err(StormFault::Quit),
        }
    }
    unreachable!()
}

/// Puts a text under itself, and gets it again.
fn put_and_get<L: Ledger, R: Wait>(
    rt: &R,
    alloc: Global,
    world: &SharedWorld<L>,
    seat: &mut Seat<L>,
    text: &str,
) -> Result<(), StormFault> {
    run_call(rt, world, seat, put_of(alloc, text)?)?;
    is_well(alloc, seat.replies().last())?;
    run_call(rt, world, seat, Command::Get(Text::from_str(alloc, text)?))?;
    reads(alloc, seat.replies().last(), text.as_bytes())
}

/// A put of a text under itself.
fn put_of(alloc: Global, text: &str) -> Result<Command, AllocError> {
    let key = Text::from_str(alloc, text)?;
    let data = Bytes::new(alloc, Vec::from_slice(alloc, text.as_bytes())?)?;
    Ok(Command::Put(Put {
        key: Some(key),
        data,
        moment: MOMENT,
        options: Options::blank(Algorithm::Sha256),
    }))
}

/// Begins a call and moves it to its end.
fn run_call<L: Ledger, R: Wait>(
    rt: &R,
    world: &SharedWorld<L>,
    seat: &mut Seat<L>,
    command: Command,
) -> Result<(), StormFault> {
    world.begin(rt, seat, command)?;
    for _ in rt.forever() {
        match world.go(rt, seat, Luck::Plain)? {
            Went::More => {}
            Went::Done => return Ok(()),
        }
    }
    unreachable!()
}

/// That a call didn't fail.
fn is_well(alloc: Global, reply: Option<&Reply>) -> Result<(), StormFault> {
    match reply {
        Some(reply) => well(reply.copy(alloc)?),
        None => Err(StormFault::Mismatch),
    }
}

/// The fault of a reply, if it is one.
fn well(reply: Reply) -> Result<(), StormFault> {
    match reply {
        Reply::Refused(error) => Err(StormFault::Failed(error)),
        other => {
            let_go(other);
            Ok(())
        }
    }
}

/// That a call read these bytes.
fn reads(alloc: Global, reply: Option<&Reply>, bytes: &[u8]) -> Result<(), StormFault> {
    if holds(reply, bytes) {
        return Ok(());
    }
    is_well(alloc, reply)?;
    Err(StormFault::Mismatch)
}

/// Whether a reply is these bytes.
fn holds(reply: Option<&Reply>, bytes: &[u8]) -> bool {
    match reply {
        Some(Reply::Read(read)) => read.as_slice() == bytes,
        _ => false,
    }
}
