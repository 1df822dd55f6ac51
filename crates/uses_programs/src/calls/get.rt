//! Calls that read.
use crate::calls::{copies, shown, two};
use anyhow::Result;
use cacache::env::Memory;

/// The bytes of a key.
fn read_sync(rt: HostRuntime, mut env: &mut Memory) -> Result<String> {
    cacache::write_sync(&mut env, "my-cache", "key", b"my data")?;
    let bytes = cacache::read_sync(&mut env, "my-cache", "key")?; // b"my data"
    shown(rt.alloc(), &bytes)
}

/// The bytes of an integrity.
fn read_hash_sync(rt: HostRuntime, mut env: &mut Memory) -> Result<String> {
    let sri = cacache::write_hash_sync(&mut env, "my-cache", b"my data")?;
    let bytes = cacache::read_hash_sync(&mut env, "my-cache", &sri)?; // b"my data"
    shown(rt.alloc(), &bytes)
}

/// Whether a content is there, before it is stored and after.
fn exists_sync(rt: HostRuntime, mut env: &mut Memory) -> Result<String> {
    let alloc = rt.alloc();
    let sri = cacache::Integrity::from(alloc, b"my data")?;
    let before = cacache::exists_sync(&mut env, "my-cache", &sri)?; // false
    cacache::write_hash_sync(&mut env, "my-cache", b"my data")?;
    let after = cacache::exists_sync(&mut env, "my-cache", &sri)?; // true
    two(alloc, before, after)
}

/// The contents that are there.
fn list(rt: HostRuntime, mut env: &mut Memory) -> Result<String> {
    let mut text = String::new(rt.alloc());
    cacache::write_hash_sync(&mut env, "my-cache", b"hello")?;
    let contents = cacache::content::read::list(&mut env, "my-cache")?;
    for sri in &contents.addresses {
        write!(text, "{sri}")?; // sha256-LPJNul+wow4m6DsqxbninhsWHlwfp0JecwQzYpOLmCQ=
    }
    Ok(text)
}

/// What comes of the call of this name.
pub(crate) fn came(rt: HostRuntime, env: &mut Memory, name: &str) -> Result<String> {
    match name {
        "read_sync" => read_sync(rt, env),
        "read_hash_sync" => read_hash_sync(rt, env),
        "exists_sync" => exists_sync(rt, env),
        "content::read::list" => list(rt, env),
        _ => copies::came(rt, env, name),
    }
}
