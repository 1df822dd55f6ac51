//! Calls on the index.
use crate::calls::{rm, shown, two};
use anyhow::Result;
use cacache::env::{Memory, memory};
use cacache::{Integrity, WriteOpts};

/// Makes an entry with a given time.
fn insert_timed(env: &mut Memory) -> Result<()> {
    let sri = Integrity::from(env.alloc, b"hello")?;
    let opts = WriteOpts::new().integrity(sri).size(5).time(1234567890123);
    cacache::index::insert(env, "my-cache", "key", opts)?;
    Ok(())
}

/// An entry for a content that is there.
fn insert(rt: HostRuntime, mut env: &mut Memory) -> Result<String> {
    let sri = cacache::write_hash_sync(&mut env, "my-cache", b"my data")?;
    let opts = cacache::WriteOpts::new().integrity(sri).size(7);
    cacache::index::insert(&mut env, "my-cache", "key", opts)?;
    let bytes = cacache::read_sync(&mut env, "my-cache", "key")?; // b"my data"
    shown(rt.alloc(), &bytes)
}

/// The entry of a key.
fn metadata_sync(rt: HostRuntime, mut env: &mut Memory) -> Result<String> {
    let mut text = String::new(rt.alloc());
    cacache::write_sync(&mut env, "my-cache", "key", b"my data")?;
    if let Some(entry) = cacache::metadata_sync(&mut env, "my-cache", "key")? {
        write!(text, "{} has {} bytes", entry.key, entry.size)?; // key has 7 bytes
    }
    Ok(text)
}

/// A key that is removed, and its content, which stays.
fn remove_sync(rt: HostRuntime, mut env: &mut Memory) -> Result<String> {
    let sri = cacache::write_sync(&mut env, "my-cache", "key", b"my data")?;
    cacache::remove_sync(&mut env, "my-cache", "key")?;
    let found = cacache::metadata_sync(&mut env, "my-cache", "key")?.is_some(); // false
    let bytes = cacache::read_hash_sync(&mut env, "my-cache", &sri)?; // b"my data"
    let text = shown(rt.alloc(), &bytes)?;
    two(rt.alloc(), found, text)
}

/// All entries. The listing lends the environment, which is this function's own.
pub(crate) fn list_sync(rt: HostRuntime) -> Result<String> {
    let mut text = String::new(rt.alloc());
    let mut env = memory(rt, "/")?;
    cacache::write_sync(&mut env, "my-cache", "key", b"my data")?;
    for entry in cacache::list_sync(&mut env, "my-cache")? {
        let entry = entry?;
        write!(text, "{}: {} bytes", entry.key, entry.size)?; // key: 7 bytes
    }
    Ok(text)
}

/// The texts of entries.
fn text(rt: HostRuntime, mut env: &mut Memory) -> Result<String> {
    let alloc = rt.alloc();
    insert_timed(env)?;
    let mut lines = Vec::new(alloc);
    if let Some(found) = cacache::metadata_sync(&mut env, "my-cache", "key")? {
        let entry = cacache::index::entry_of(alloc, found)?;
        lines.push(cacache::index::text(alloc, &entry)?)?; // {"key":"key","integrity":..
    }
    match lines.first() {
        Some(line) => shown(alloc, line),
        None => shown(alloc, b""),
    }
}

/// What comes of the call of this name.
pub(crate) fn came(rt: HostRuntime, env: &mut Memory, name: &str) -> Result<String> {
    match name {
        "index::insert" => insert(rt, env),
        "metadata_sync" => metadata_sync(rt, env),
        "remove_sync" => remove_sync(rt, env),
        "index::text" => text(rt, env),
        _ => rm::came(rt, env, name),
    }
}
