//! A compiler with a thread for each unit. The threads hand one another what they make by a cache in a real folder.
//! Each stores the interface of its unit, and once all have, each reads the interfaces that its unit uses and stores
//! its object.
//!
//! They share that folder, and nothing else. Each thread makes an environment of its own by `folders`, with its own copy
//! of the runtime, and its own store, clock and numbers for temporary files. These numbers begin at random bytes of the
//! system, so that two threads don't come to one name (`ProcessNames` says how unlikely that is). No lock is needed: a
//! content is moved to its place whole, and an entry goes into its bucket in one append.
//!
//! The cache is the folder `units`, below the program's working folder. It stays there, and a later run may use it.
mod units;

use crate::threads::units::{UNITS, Unit};
use cacache::Result;
use cacache::env::folders;
use cacache::errors::IoErrorExt;
use std::thread;
use std::thread::Threads;

/// Stores the interface of a unit, in an environment of this thread.
fn store(rt: HostRuntime, unit: &Unit) -> Result<()> {
    let mut env = folders(rt, "/")?;
    unit.store(&mut env)
}

/// Compiles a unit, in an environment of this thread.
fn compile(rt: HostRuntime, unit: &Unit) -> Result<()> {
    let mut env = folders(rt, "/")?;
    unit.compile(&mut env)
}

/// Stores the interface of each unit in a thread of its own, and returns once all threads have ended. If the system can't
/// start a thread, the calls run one after another, which works because none waits for another. `rt` starts the threads.
/// `host` is the same runtime; each thread gets it.
fn store_all<R: Threads + Sync>(rt: &R, host: HostRuntime) -> Result<()> {
    let ends = thread::map_indices(rt, host.alloc(), UNITS.len(), &|at| store(host, &UNITS[at]))?;
    for end in ends {
        end?;
    }
    Ok(())
}

/// Compiles all units in the same way. By now the cache has the interfaces that they use.
fn compile_all<R: Threads + Sync>(rt: &R, host: HostRuntime) -> Result<()> {
    let ends = thread::map_indices(
        rt,
        host.alloc(),
        UNITS.len(),
        &|at| compile(host, &UNITS[at]),
    )?;
    for end in ends {
        end?;
    }
    Ok(())
}

/// Prints the objects that the threads stored, in the order of their units.
fn print_all(rt: HostRuntime) -> Result<()> {
    let mut env = folders(rt, "/")?;
    for unit in UNITS {
        let object = unit.object(&mut env)?;
        let text = str::from_utf8(&object).unwrap_or("no text\n");
        print!(rt; "{text}").context(rt.alloc(), "Failed to print an object")?;
    }
    Ok(())
}

/// Compiles the units, and prints their objects. `rt` starts the threads, and `host` is the same runtime.
pub(crate) fn run<R: Threads + Sync>(rt: &R, host: HostRuntime) -> Result<()> {
    store_all(rt, host)?;
    compile_all(rt, host)?;
    print_all(host)
}
