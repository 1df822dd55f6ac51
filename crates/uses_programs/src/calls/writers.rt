//! Contents that are written in pieces.
use crate::calls::{printed, readers, shown};
use anyhow::Result;
use cacache::env::Memory;
use std::io::Write;

/// A content whose pieces are written one after another.
fn create(rt: HostRuntime, mut env: &mut Memory) -> Result<String> {
    let mut writer = cacache::SyncWriter::create(&mut env, "my-cache", "key")?;
    writer.write_all(b"my ")?;
    writer.write_all(b"data")?;
    let sri = writer.commit(&mut env)?; // nothing was saved before
    let bytes = cacache::read_hash_sync(&mut env, "my-cache", &sri)?; // b"my data"
    shown(rt.alloc(), &bytes)
}

/// A content whose pieces are written one after another, with an algorithm.
fn create_with_algo(rt: HostRuntime, mut env: &mut Memory) -> Result<String> {
    let algo = cacache::Algorithm::Sha512;
    let mut writer = cacache::SyncWriter::create_with_algo(&mut env, algo, "my-cache", "key")?;
    writer.write_all(b"my data")?;
    let sri = writer.commit(&mut env)?; // nothing was saved before
    let algorithm = sri.pick_algorithm(); // Algorithm::Sha512
    printed(rt.alloc(), algorithm)
}

/// A content whose file is removed if a write fails.
fn write_or_abandon(rt: HostRuntime, mut env: &mut Memory) -> Result<String> {
    let mut writer = cacache::SyncWriter::create(&mut env, "my-cache", "key")?;
    writer = writer.write_or_abandon(&mut env, b"my data")?;
    let sri = writer.commit(&mut env)?;
    let bytes = cacache::read_hash_sync(&mut env, "my-cache", &sri)?;
    shown(rt.alloc(), &bytes)
}

/// A content with metadata and an expected size.
fn open_sync(rt: HostRuntime, mut env: &mut Memory) -> Result<String> {
    let opts = cacache::WriteOpts::new()
        .metadata(cacache::Value::Bool(true))
        .size(7);
    let mut writer = opts.open_sync(&mut env, "my-cache", "key")?;
    writer.write_all(b"my data")?; // one byte less, and the commit is a SizeMismatch
    let sri = writer.commit(&mut env)?;
    printed(rt.alloc(), sri)
}

/// What comes of the call of this name.
pub(crate) fn came(rt: HostRuntime, env: &mut Memory, name: &str) -> Result<String> {
    match name {
        "SyncWriter::create" => create(rt, env),
        "SyncWriter::create_with_algo" => create_with_algo(rt, env),
        "SyncWriter::write_or_abandon" => write_or_abandon(rt, env),
        "WriteOpts::open_sync" => open_sync(rt, env),
        _ => readers::came(rt, env, name),
    }
}
