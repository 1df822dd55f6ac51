//! Storms of threads.
use cacache::jobs::{Gate, Open, Pass};
use cacache::world::{Storm, StormFault, storm};
use cacache_core::keeping::let_go;
use std::sync::Wait;
use std::sync::atomic::{AtomicU64, Ordering};
use std::test::Fail;
use std::thread::Threads;
use std::time::Clock;

/// How many keys each thread has.
const KEYS: u64 = 5;

/// Is shut at turn 0 until another thread's turn was let through, and quits after 5,000 tries.
#[derive(Drop)]
struct Crossed {
    tries: AtomicU64,
    /// The sum of the turns that were let through.
    passed: AtomicU64,
}

impl Crossed {
    /// One that was tried so often.
    fn after(tries: u64) -> Crossed {
        Crossed {
            tries: AtomicU64::new(tries),
            passed: AtomicU64::new(0),
        }
    }
}

impl Gate for Crossed {
    fn pass(&self, turn: u64) -> Pass {
        if turn != 0 || self.passed.load(Ordering::SeqCst) >= KEYS {
            self.passed.fetch_add(turn, Ordering::SeqCst);
            return Pass::Go;
        }
        if self.tries.fetch_add(1, Ordering::SeqCst) < 5000 {
            Pass::NotYet
        } else {
            Pass::Quit
        }
    }
}

/// A gate that is shut for good.
#[derive(Drop)]
struct Shut;

impl Gate for Shut {
    fn pass(&self, _turn: u64) -> Pass {
        Pass::Quit
    }
}

/// How many moves and entries a storm comes to, if it comes to its end.
fn counts<R: Threads + Wait + Clock + AllocGlobal + Sync, G: Gate + Sync>(
    rt: &R,
    threads: u64,
    keys: u64,
    gate: &G,
) -> Option<(u64, u64)> {
    match storm(rt, threads, keys, gate) {
        Ok(Storm { moves, live }) => Some((moves, live)),
        Err(fault) => {
            let_go(fault);
            None
        }
    }
}

/// Whether a storm ends since a number is out of range.
fn is_out_of_range<R: Threads + Wait + Clock + AllocGlobal + Sync>(
    rt: &R,
    threads: u64,
    keys: u64,
) -> bool {
    let stormed = storm(rt, threads, keys, &Open);
    let is_count = matches!(&stormed, Err(StormFault::Count));
    let_go(stormed);
    is_count
}

/// Whether a storm ends since its gate said so.
fn is_quit<R: Threads + Wait + Clock + AllocGlobal + Sync, G: Gate + Sync>(
    rt: &R,
    threads: u64,
    gate: &G,
) -> bool {
    let stormed = storm(rt, threads, KEYS, gate);
    let is_quit = matches!(&stormed, Err(StormFault::Quit));
    let_go(stormed);
    is_quit
}

#[test]
fn storms_count_their_moves(rt: HostRuntime) -> Result<(), Fail> {
    assert_eq!(rt; counts(&rt, 4, 25, &Open), Some((900, 100)));
    assert_eq!(rt; counts(&rt, 1, 1, &Open), Some((9, 1)));
    Ok(())
}

#[test]
fn storms_end_early(rt: HostRuntime) -> Result<(), Fail> {
    assert!(rt; is_out_of_range(&rt, 0, 5) && is_out_of_range(&rt, 65, 5));
    assert!(rt; is_out_of_range(&rt, 2, 0) && is_out_of_range(&rt, 2, 1001));
    assert!(rt; is_quit(&rt, 2, &Shut));
    assert!(rt; is_quit(&rt, 1, &Crossed::after(4990)));
    Ok(())
}

#[test]
fn threads_run_at_the_same_time(rt: HostRuntime) -> Result<(), Fail> {
    let gate = Crossed::after(0);
    assert_eq!(rt; counts(&rt, 2, KEYS, &gate), Some((90, 10)));
    assert_eq!(rt; gate.passed.load(Ordering::SeqCst), 45);
    Ok(())
}
