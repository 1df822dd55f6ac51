//! An environment in which rows are tried: its clock stands still, and its numbers begin at 0.
use cacache_core::keeping::beside;
use cacache_disk::memory::MemStore;
use cacache_folder::FolderStore;
use cacache_store::env::{Clock, Env, Names};
use cacache_store::store::Store;
use std::alloc::{AllocError, AllocGlobal, Global};
use std::os::fd::AsRawFd;
use std::random::RandomSource;
use std::rt::Files;
use std::{fs, io};

/// When each entry is made if a row says nothing else, in milliseconds.
pub const MOMENT: u64 = 1000;

/// A clock that stands still, and counts how often it is asked.
#[derive(Drop)]
pub struct Still {
    /// What it says.
    pub moment: u64,
    /// How often it was asked.
    pub asked: u64,
}

impl Clock for Still {
    fn now(&mut self) -> u64 {
        self.asked = self.asked.saturating_add(1);
        self.moment
    }
}

/// Numbers from 0 on, which also say how often one was asked for.
#[derive(Drop)]
pub struct Numbers {
    /// The next one.
    pub next: u64,
}

impl Names for Numbers {
    fn fresh(&mut self) -> u64 {
        let number = self.next;
        self.next = number.saturating_add(1);
        number
    }
}

/// An environment over this kind of store.
pub type On<S> = Env<S, Still, Numbers>;

/// An environment over this store.
pub fn on<S: Store + Drop>(alloc: Global, store: S, base: &str) -> Result<On<S>, AllocError> {
    let clock = Still {
        moment: MOMENT,
        asked: 0,
    };
    Env::new(alloc, store, clock, Numbers { next: 0 }, base)
}

/// An environment on an empty disk in memory.
pub fn in_memory(alloc: Global) -> Result<On<MemStore>, AllocError> {
    on(alloc, MemStore::new(alloc)?, "/")
}

/// An environment on real folders, those below the one that the program runs in.
pub fn in_folders<R>(rt: &R) -> io::Result<On<FolderStore<R>>>
where
    R: Files + RandomSource + AllocGlobal + Clone + Drop,
    R::File: AsRawFd,
{
    let here = fs::canonicalize(rt, ".")?;
    let (own, here) = beside(rt.clone(), here)?;
    Ok(on(rt.alloc(), FolderStore::new(own), here.as_str())?)
}

/// What an act gave both in memory and on real folders, which is to be the same.
pub fn in_both(alloc: Global, in_memory: String, in_folders: String) -> Result<String, AllocError> {
    if in_memory == in_folders {
        return Ok(in_memory);
    }
    format!(in alloc; "{in_memory}, but in folders {in_folders}")
}
