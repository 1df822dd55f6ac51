//! The examples of the public calls, each as the call's docs have it, and on a disk in memory of its own if it needs
//! one. What came of it is printed after the call's name. `env` is `mut` everywhere, so that the lines are those of a
//! caller who owns it, as some of these do.
//!
//! Each file's `came` makes the calls of that file, and hands any other name on to the next file.
mod awaited;
mod copies;
mod env;
mod get;
mod hard_links;
mod index;
mod integrity;
mod links;
mod polled;
mod put;
mod readers;
mod reflinks;
mod rm;
mod writers;

use anyhow::Result;
use cacache::env::{Memory, memory};
use std::alloc::{AllocGlobal, Global};
use std::fmt::Display;
use std::random::RandomSource;
use std::sync::Wait;
use std::thread::Threads;
use std::time::Clock;

/// The calls that aren't futures, in the order in which they are made.
const CALLS: [&str; 44] = [
    "Integrity::parse",
    "Integrity::check",
    "env::folders",
    "env::another",
    "env::memory",
    "write_sync",
    "write_sync_with_algo",
    "write_vec_sync",
    "write_hash_sync",
    "write_hash_sync_with_algo",
    "link_to_sync",
    "link_to_hash_sync",
    "SyncToLinker::open",
    "SyncToLinker::open_hash",
    "read_sync",
    "read_hash_sync",
    "exists_sync",
    "content::read::list",
    "copy_sync",
    "copy_unchecked_sync",
    "copy_hash_sync",
    "copy_hash_unchecked_sync",
    "reflink_sync",
    "reflink_unchecked_sync",
    "reflink_hash_sync",
    "reflink_hash_unchecked_sync",
    "hard_link_sync",
    "hard_link_unchecked_sync",
    "hard_link_hash_sync",
    "hard_link_hash_unchecked_sync",
    "index::insert",
    "metadata_sync",
    "remove_sync",
    "list_sync",
    "index::text",
    "remove_hash_sync",
    "clear_sync",
    "RemoveOpts::remove_sync",
    "SyncWriter::create",
    "SyncWriter::create_with_algo",
    "SyncWriter::write_or_abandon",
    "WriteOpts::open_sync",
    "SyncReader::open",
    "SyncReader::open_hash",
];

/// The calls that are futures.
const FUTURES: [&str; 8] = [
    "read",
    "write",
    "Reader::open",
    "ToLinker::open",
    "Writer::create",
    "Writer::poll_write",
    "Writer::write_all",
    "Writer::copy_from",
];

/// The bytes as a text.
pub(crate) fn shown(alloc: Global, bytes: &[u8]) -> Result<String> {
    Ok(String::from_str(alloc, str::from_utf8(bytes)?)?)
}

/// What a value prints as.
pub(crate) fn printed<T: Display + Drop>(alloc: Global, value: T) -> Result<String> {
    Ok(value.to_string(alloc)?)
}

/// What two values print as.
pub(crate) fn two<A, B>(alloc: Global, one: A, other: B) -> Result<String>
where
    A: Display + Drop,
    B: Display + Drop,
{
    Ok(format!(in alloc; "{one}, {other}")?)
}

/// The bytes of a file outside the cache.
pub(crate) fn bytes_at(alloc: Global, env: &mut Memory, path: &str) -> Result<String> {
    match env.store.bytes(path)? {
        Some(bytes) => shown(alloc, &bytes),
        None => shown(alloc, b""),
    }
}

/// What comes of a call on a disk in memory of its own.
fn in_memory(rt: HostRuntime, name: &str) -> Result<String> {
    let mut env = memory(rt, "/")?;
    put::came(rt, &mut env, name)
}

/// What comes of a call that isn't a future.
fn came(rt: HostRuntime, name: &str) -> Result<String> {
    match name {
        "Integrity::parse" => integrity::parse(rt),
        "Integrity::check" => integrity::check(rt),
        "env::folders" => env::folders(rt),
        "env::another" => env::another(rt),
        "env::memory" => env::memory(rt),
        "list_sync" => index::list_sync(rt),
        _ => in_memory(rt, name),
    }
}

/// What comes of a future on a disk in memory of its own, which it borrows.
fn borrowing<R>(rt: R, host: HostRuntime, name: &str) -> Result<String>
where
    R: Wait + RandomSource + AllocGlobal + Copy,
{
    let mut env = memory(host, "/")?;
    match name {
        "read" => awaited::read(rt, &mut env),
        _ => awaited::reader(rt, &mut env),
    }
}

/// What comes of a future that gets a disk in memory.
fn taking<R>(rt: R, host: HostRuntime, name: &str) -> Result<String>
where
    R: Threads + Wait + Clock + RandomSource + AllocGlobal + Copy + Sync + Send + 'static,
{
    let env = memory(host, "/")?;
    match name {
        "write" => awaited::write(rt, env),
        "ToLinker::open" => awaited::linker(rt, env),
        "Writer::create" => polled::create(rt, env),
        "Writer::poll_write" => polled::poll_write(rt, env),
        _ => polled::fed(rt, env, name),
    }
}

/// What comes of a call that is a future. `rt` waits and starts threads, and `host` is the same runtime.
fn waited_for<R>(rt: R, host: HostRuntime, name: &str) -> Result<String>
where
    R: Threads + Wait + Clock + RandomSource + AllocGlobal + Copy + Sync + Send + 'static,
{
    match name {
        "read" | "Reader::open" => borrowing(rt, host, name),
        _ => taking(rt, host, name),
    }
}

/// Makes each call, and prints its name and what came of it. `rt` waits and starts threads, and `host` is the same runtime.
pub(crate) fn run<R>(rt: R, host: HostRuntime) -> Result<()>
where
    R: Threads + Wait + Clock + RandomSource + AllocGlobal + Copy + Sync + Send + 'static,
{
    for name in CALLS {
        println!(host; "{name}: {}", came(host, name)?)?;
    }
    for name in FUTURES {
        println!(host; "{name}: {}", waited_for(rt, host, name)?)?;
    }
    Ok(())
}
