//! The places at which rows are tried: a disk in memory and real folders.
use crate::acts::{made, parts_of};
use crate::answers::with;
use crate::cores::asked_in_turn;
use crate::writers::written;
use cacache_core::keeping::beside;
use cacache_disk::memory::MemStore;
use cacache_folder::FolderStore;
use row_places::{Faulty, Mishaps, On, in_both, in_folders, in_memory, on};
use rows::words::{column, cut, number_of, word_of};
use rows::{Flaw, Outcome, Trial};
use std::alloc::Global;
use std::io;
use std::os::fd::AsRawFd;
use std::random::RandomSource;
use std::rt::Files;
use std::sync::Wait;

/// A disk in memory and real folders, which go through the same rows.
#[derive(Drop)]
pub(crate) struct Places<R, S> {
    rt: R,
    memory: On<MemStore>,
    folders: On<S>,
}

impl<R: Files + RandomSource + AllocGlobal + Clone + Drop> Places<R, FolderStore<R>>
where
    R::File: AsRawFd,
{
    /// Empty ones. The folders are those below the one where the program runs.
    pub(crate) fn new(rt: &R) -> io::Result<Places<R, FolderStore<R>>> {
        let folders = in_folders(rt)?;
        let (memory, folders) = beside(in_memory(rt.alloc()), folders)?;
        let (rt, (memory, folders)) = beside(rt.clone(), (memory, folders))?;
        Ok(Places {
            rt,
            memory,
            folders,
        })
    }
}

/// The number of a read or a write, which words count from 1.
fn number_in(number: &str) -> Result<Option<usize>, Flaw> {
    match number_of(number)?.checked_sub(1) {
        None => Err(Flaw::NotRead),
        number => Ok(number),
    }
}

/// What goes wrong with a file, in words: `fails N` and `short N` name the read or write that fails, or takes one byte at
/// most; `most N` says how many bytes a write takes at most; after `interrupted` each other read is, the first too; after
/// `unflushed` no flush is done, and after `unremoved` the file isn't removed.
pub(crate) fn mishaps_of(words: &str) -> Result<Mishaps, Flaw> {
    let mut mishaps = Mishaps::NONE;
    match cut(words) {
        ("fails", number) => mishaps.fails = number_in(number)?,
        ("short", number) => mishaps.short = number_in(number)?,
        ("most", number) => mishaps.most = number_of(number)?,
        ("interrupted", _) => mishaps.interrupts = true,
        ("unflushed", _) => mishaps.unflushed = true,
        ("unremoved", _) => mishaps.stays = true,
        _ => return Err(Flaw::NotRead),
    }
    Ok(mishaps)
}

/// What a writer's steps give over a store with files that have mishaps, and then what the content holds.
fn with_mishaps<R: Wait + RandomSource + AllocGlobal>(
    rt: &R,
    env: &mut On<Faulty>,
    steps: &str,
) -> Result<String, Flaw> {
    let line = written(rt, env, "new c sha256", steps)?;
    let holds = format!(in rt.alloc(); "holds {}", word_of(&env.store.kept));
    Ok(with(line, holds)?)
}

/// An environment over a store with files that have this luck.
fn with_luck(alloc: Global, luck: &str) -> Result<On<Faulty>, Flaw> {
    let store = Faulty::new(alloc, mishaps_of(luck)?)?;
    Ok(on(alloc, store, "/")?)
}

/// A writer with a temporary file that has this luck.
fn unlucky<R: Wait + RandomSource + AllocGlobal>(
    rt: &R,
    luck: &str,
    steps: &str,
) -> Result<String, Flaw> {
    let mut env = with_luck(rt.alloc(), luck)?;
    with_mishaps(rt, &mut env, steps)
}

/// What an act that opens the file of a store gives, with the luck in front of it.
fn faulty<R: Wait + RandomSource + AllocGlobal>(rt: &R, words: &str) -> Result<String, Flaw> {
    let Some((luck, act)) = words.split_once(", ") else {
        return Err(Flaw::NotRead);
    };
    let mut env = with_luck(rt.alloc(), luck)?;
    made(rt, &mut env, act)
}

/// What an act gives at both places.
fn at_both<R>(places: &mut Places<R, FolderStore<R>>, act: &str) -> Result<String, Flaw>
where
    R: Wait + RandomSource + Files + AllocGlobal + Clone + Drop,
    R::File: AsRawFd,
{
    let in_memory = made(&places.rt, &mut places.memory, act)?;
    let in_folders = made(&places.rt, &mut places.folders, act);
    let (in_folders, in_memory) = beside(in_folders, in_memory)?;
    Ok(in_both(places.rt.alloc(), in_memory, in_folders)?)
}

/// What an act gives: `core`, `unlucky` and `faulty` at no place, after `memory` or `folders` only there, otherwise
/// at both places.
fn tried<R>(places: &mut Places<R, FolderStore<R>>, act: &str) -> Result<String, Flaw>
where
    R: Wait + RandomSource + Files + AllocGlobal + Clone + Drop,
    R::File: AsRawFd,
{
    let (name, words) = cut(act);
    match name {
        "core" => asked_in_turn(places.rt.alloc(), words),
        "unlucky" => {
            let (luck, steps) = parts_of(words);
            unlucky(&places.rt, luck, steps)
        }
        "faulty" => faulty(&places.rt, words),
        "memory" => made(&places.rt, &mut places.memory, words),
        "folders" => made(&places.rt, &mut places.folders, words),
        _ => at_both(places, act),
    }
}

impl<R> Trial for Places<R, FolderStore<R>>
where
    R: Wait + RandomSource + Files + AllocGlobal + Clone + Drop,
    R::File: AsRawFd,
{
    fn outcome(&mut self, row: &str) -> Result<Outcome, Flaw> {
        let (act, wanted) = column(row)?;
        let wanted = String::from_str(self.rt.alloc(), wanted)?;
        let (got, wanted) = beside(tried(self, act), wanted)?;
        Ok(Outcome { wanted, got })
    }
}
