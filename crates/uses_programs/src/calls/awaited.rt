//! Calls as futures.
use crate::calls::{printed, shown, two};
use anyhow::Result;
use cacache::env::Memory;
use futures::executor::block_on;
use std::alloc::AllocGlobal;
use std::io::Read;
use std::random::RandomSource;
use std::sync::Wait;

/// The bytes of a key.
pub(crate) fn read<R>(rt: R, mut env: &mut Memory) -> Result<String>
where
    R: Wait + RandomSource + AllocGlobal + Copy,
{
    cacache::write_sync(&mut env, "my-cache", "key", b"my data")?;
    let bytes = block_on(&rt, cacache::read(&mut env, "my-cache", "key"))??; // b"my data"
    shown(rt.alloc(), &bytes)
}

/// Bytes under a key.
pub(crate) fn write<R>(rt: R, mut env: Memory) -> Result<String>
where
    R: Wait + RandomSource + AllocGlobal + Copy,
{
    let sri = block_on(&rt, cacache::write(&mut env, "my-cache", "key", b"my data"))??;
    let bytes = cacache::read_hash_sync(&mut env, "my-cache", &sri)?; // b"my data"
    shown(rt.alloc(), &bytes)
}

/// A content that is read in pieces.
pub(crate) fn reader<R>(rt: R, mut env: &mut Memory) -> Result<String>
where
    R: Wait + RandomSource + AllocGlobal + Copy,
{
    let alloc = rt.alloc();
    cacache::write_sync(&mut env, "my-cache", "key", b"my data")?;
    let mut reader = block_on(&rt, cacache::Reader::open(&mut env, "my-cache", "key"))??;
    let mut text = String::new(alloc);
    reader.read_to_string(&mut text)?; // text is "my data", which isn't checked yet
    let algorithm = reader.check()?; // Algorithm::Sha256
    two(alloc, text, algorithm)
}

/// A link to a file outside the cache.
pub(crate) fn linker<R>(rt: R, mut env: Memory) -> Result<String>
where
    R: Wait + RandomSource + AllocGlobal + Copy,
{
    env.store.plant("/my-file", b"hello")?;
    let linker = block_on(
        &rt,
        cacache::ToLinker::open(&mut env, "my-cache", "key", "/my-file"),
    )??;
    let sri = block_on(&rt, linker.commit(&mut env))??; // nothing was saved before
    printed(rt.alloc(), sri)
}
