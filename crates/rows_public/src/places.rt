//! The places at which rows are tried: a disk in memory, real folders, and a disk in memory with calls that are
//! futures.
use crate::polled::polled;
use crate::program::ran_or_made;
use crate::row::{Row, row_of};
use crate::told::{counted, told};
use crate::trials;
use cacache::store::{FolderStore, MemStore};
use row_places::{Numbers, On, in_both, in_folders, in_memory};
use rows::words::cut;
use rows::{Flaw, Outcome};
use std::alloc::AllocGlobal;
use std::io;
use std::random::RandomSource;
use std::sync::Wait;
use std::thread::Threads;
use std::time::Clock;

/// A disk in memory, real folders, and a disk in memory for futures, which go through the same rows.
#[derive(Drop)]
pub(crate) struct Places {
    memory: On<MemStore>,
    folders: On<FolderStore<HostRuntime>>,
    /// These folders once more, for somebody else.
    beside: On<FolderStore<HostRuntime>>,
    futures: On<MemStore>,
}

impl Places {
    /// Empty ones. The folders are those below the one where the program runs.
    pub(crate) fn new(rt: &HostRuntime) -> io::Result<Places> {
        let folders = in_folders(rt)?;
        let beside = in_folders(rt)?;
        let memory = in_memory(rt.alloc())?;
        let futures = in_memory(rt.alloc())?;
        Ok(Places {
            memory,
            folders,
            beside,
            futures,
        })
    }

    /// Begins a group of rows, and numbers their temporary files from 0.
    pub(crate) fn begin(&mut self) {
        self.memory.names = Numbers { next: 0 };
        self.folders.names = Numbers { next: 0 };
        self.futures.names = Numbers { next: 0 };
    }
}

/// What the row's act gives in memory, where an act may ask what the log gained.
fn made_in_memory<R: Threads + Wait + Clock + AllocGlobal + Sync>(
    rt: &R,
    memory: &mut On<MemStore>,
    row: Row<'_>,
) -> Result<String, Flaw> {
    match cut(row.act) {
        ("beside", act) => ran_or_made(rt, memory, Row { act, ..row }),
        ("told", act) => told(memory, Row { act, ..row }),
        ("count", act) => counted(memory, Row { act, ..row }),
        _ => ran_or_made(rt, memory, row),
    }
}

/// What the row's act gives as a future, if it is a call that has one.
fn by_future<R: Threads + Wait + Clock + RandomSource + AllocGlobal + Sync>(
    rt: &R,
    futures: &mut On<MemStore>,
    row: Row<'_>,
) -> Result<String, Flaw> {
    match polled(rt, futures, row)? {
        Some(line) => Ok(line),
        None => made_in_memory(rt, futures, row),
    }
}

/// What the row's act gives in memory; as a future it must give and log the same.
fn in_both_memories<R: Threads + Wait + Clock + RandomSource + AllocGlobal + Sync>(
    rt: &R,
    places: &mut Places,
    row: Row<'_>,
) -> Result<String, Flaw> {
    let before = places.memory.store.log().len();
    let line = made_in_memory(rt, &mut places.memory, row)?;
    let of_future = by_future(rt, &mut places.futures, row)?;
    let gained = places.memory.store.log().get(before..);
    if gained != places.futures.store.log().get(before..) {
        return Err(Flaw::OtherLog);
    }
    if line == of_future {
        return Ok(line);
    }
    Ok(format!(in rt.alloc(); "{line}, but as a future {of_future}")?)
}

/// What the row's act gives on real folders; after `beside` somebody else makes it.
fn made_in_folders<R: Threads + Wait + Clock + AllocGlobal + Sync>(
    rt: &R,
    places: &mut Places,
    row: Row<'_>,
) -> Result<String, Flaw> {
    match cut(row.act) {
        ("beside", act) => ran_or_made(rt, &mut places.beside, Row { act, ..row }),
        _ => ran_or_made(rt, &mut places.folders, row),
    }
}

/// What the row's act gives at all places.
fn everywhere<R: Threads + Wait + Clock + RandomSource + AllocGlobal + Sync>(
    rt: &R,
    places: &mut Places,
    row: Row<'_>,
) -> Result<String, Flaw> {
    let in_memory = in_both_memories(rt, places, row)?;
    let in_folders = made_in_folders(rt, places, row)?;
    Ok(in_both(rt.alloc(), in_memory, in_folders)?)
}

/// What the row's act gives: after the words `in memory` or `in folders` only there, after `failing` on disks in
/// memory of its own, otherwise everywhere.
fn tried<R: Threads + Wait + Clock + RandomSource + AllocGlobal + Sync>(
    rt: &R,
    places: &mut Places,
    row: Row<'_>,
) -> Result<String, Flaw> {
    if let Some(act) = row.act.strip_prefix("in memory ") {
        return in_both_memories(rt, places, Row { act, ..row });
    }
    if let Some(act) = row.act.strip_prefix("failing ") {
        return trials::tried(rt.alloc(), Row { act, ..row });
    }
    match row.act.strip_prefix("in folders ") {
        Some(act) => made_in_folders(rt, places, Row { act, ..row }),
        None => everywhere(rt, places, row),
    }
}

/// What a row wants, and what came.
pub(crate) fn outcome<R: Threads + Wait + Clock + RandomSource + AllocGlobal + Sync>(
    rt: &R,
    places: &mut Places,
    row: &str,
) -> Result<Outcome, Flaw> {
    let row = row_of(row)?;
    let wanted = String::from_str(rt.alloc(), row.wanted)?;
    let got = tried(rt, places, row)?;
    Ok(Outcome { wanted, got })
}
