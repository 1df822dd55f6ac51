//! Copies of a content outside the cache.
use crate::calls::{printed, reflinks};
use anyhow::Result;
use cacache::env::Memory;

/// A copy of a key's content.
fn copy_sync(rt: HostRuntime, mut env: &mut Memory) -> Result<String> {
    cacache::write_sync(&mut env, "my-cache", "key", b"my data")?;
    let count = cacache::copy_sync(&mut env, "my-cache", "key", "/my-copy")?; // 7
    printed(rt.alloc(), count)
}

/// A copy of a key's content that isn't verified.
fn copy_unchecked_sync(rt: HostRuntime, mut env: &mut Memory) -> Result<String> {
    cacache::write_sync(&mut env, "my-cache", "key", b"my data")?;
    let count = cacache::copy_unchecked_sync(&mut env, "my-cache", "key", "/my-copy")?; // 7
    printed(rt.alloc(), count)
}

/// A copy of an integrity's content.
fn copy_hash_sync(rt: HostRuntime, mut env: &mut Memory) -> Result<String> {
    let sri = cacache::write_hash_sync(&mut env, "my-cache", b"my data")?;
    let count = cacache::copy_hash_sync(&mut env, "my-cache", &sri, "/my-copy")?; // 7
    printed(rt.alloc(), count)
}

/// A copy of an integrity's content that isn't verified.
fn copy_hash_unchecked_sync(rt: HostRuntime, mut env: &mut Memory) -> Result<String> {
    let sri = cacache::write_hash_sync(&mut env, "my-cache", b"my data")?;
    let count = cacache::copy_hash_unchecked_sync(&mut env, "my-cache", &sri, "/my-copy")?; // 7
    printed(rt.alloc(), count)
}

/// What comes of the call of this name.
pub(crate) fn came(rt: HostRuntime, env: &mut Memory, name: &str) -> Result<String> {
    match name {
        "copy_sync" => copy_sync(rt, env),
        "copy_unchecked_sync" => copy_unchecked_sync(rt, env),
        "copy_hash_sync" => copy_hash_sync(rt, env),
        "copy_hash_unchecked_sync" => copy_hash_unchecked_sync(rt, env),
        _ => reflinks::came(rt, env, name),
    }
}
