//! A content that is written by polls.
use crate::calls::printed;
use anyhow::Result;
use cacache::env::Memory;
use cacache::jobs::Open;
use cacache::store::PlainTemp;
use cacache::{Integrity, Writer};
use futures::executor::block_on;
use futures::future::poll_fn;
use std::alloc::AllocGlobal;
use std::random::RandomSource;
use std::sync::Wait;
use std::thread;
use std::thread::Threads;
use std::time::Clock;

/// Writes and commits, while a worker does the work. Returns how many bytes it took, and the integrity.
fn written<R>(
    rt: R,
    mut env: &mut Memory,
    mut writer: Writer<PlainTemp>,
) -> Result<(usize, Integrity)>
where
    R: Wait + RandomSource + AllocGlobal + Copy,
{
    let data = b"my data";
    let count = block_on(&rt, poll_fn(|cx| writer.poll_write(&rt, cx, data)))??; // 7
    let sri = block_on(&rt, writer.commit(&rt, &mut env))??; // nothing was saved before
    Ok((count, sri))
}

/// Calls the function `written` with a writer, while the writer's worker runs in a thread of its own.
fn made<R>(rt: R, mut env: Memory) -> Result<(usize, Integrity)>
where
    R: Threads + Wait + Clock + RandomSource + AllocGlobal + Copy + Sync + Send + 'static,
{
    let writer = block_on(&rt, cacache::Writer::create(&mut env, "my-cache", "key"))??;
    let worker = writer.worker()?;
    let thread = thread::spawn(&rt, move || worker.run(&rt, &Open))?;
    let came = written(rt, &mut env, writer);
    thread.join(&rt);
    came
}

/// Writes all bytes as a future, and commits. Returns the integrity.
fn filled<R>(rt: R, mut env: &mut Memory, mut writer: Writer<PlainTemp>) -> Result<String>
where
    R: Wait + RandomSource + AllocGlobal + Copy,
{
    block_on(&rt, writer.write_all(&rt, b"my data"))??;
    let sri = block_on(&rt, writer.commit(&rt, &mut env))??; // nothing was saved before
    printed(rt.alloc(), sri)
}

/// Writes what a reader gives, and commits. Returns how many bytes that were.
fn copied<R>(rt: R, mut env: &mut Memory, mut writer: Writer<PlainTemp>) -> Result<String>
where
    R: Wait + RandomSource + AllocGlobal + Copy,
{
    let reader: &[u8] = b"my data";
    let count = block_on(&rt, writer.copy_from(&rt, reader))??; // 7
    block_on(&rt, writer.commit(&rt, &mut env))??; // nothing was saved before
    printed(rt.alloc(), count)
}

/// What comes of such a future of this name, while the writer's worker runs in a thread of its own.
pub(crate) fn fed<R>(rt: R, mut env: Memory, name: &str) -> Result<String>
where
    R: Threads + Wait + Clock + RandomSource + AllocGlobal + Copy + Sync + Send + 'static,
{
    let writer = block_on(&rt, cacache::Writer::create(&mut env, "my-cache", "key"))??;
    let worker = writer.worker()?;
    let thread = thread::spawn(&rt, move || worker.run(&rt, &Open))?;
    let came = match name {
        "Writer::write_all" => filled(rt, &mut env, writer),
        _ => copied(rt, &mut env, writer),
    };
    thread.join(&rt);
    came
}

/// The integrity of what was written.
pub(crate) fn create<R>(rt: R, env: Memory) -> Result<String>
where
    R: Threads + Wait + Clock + RandomSource + AllocGlobal + Copy + Sync + Send + 'static,
{
    let (_count, sri) = made(rt, env)?;
    printed(rt.alloc(), sri)
}

/// How many bytes the worker took.
pub(crate) fn poll_write<R>(rt: R, env: Memory) -> Result<String>
where
    R: Threads + Wait + Clock + RandomSource + AllocGlobal + Copy + Sync + Send + 'static,
{
    let (count, _sri) = made(rt, env)?;
    printed(rt.alloc(), count)
}
