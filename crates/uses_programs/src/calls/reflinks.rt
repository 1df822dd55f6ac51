//! Files outside the cache that share a content's storage.
use crate::calls::{bytes_at, hard_links};
use anyhow::Result;
use cacache::env::Memory;

/// One of a key's content.
fn reflink_sync(rt: HostRuntime, mut env: &mut Memory) -> Result<String> {
    cacache::write_sync(&mut env, "my-cache", "key", b"my data")?;
    cacache::reflink_sync(&mut env, "my-cache", "key", "/my-copy")?; // on real folders it fails
    bytes_at(rt.alloc(), env, "/my-copy")
}

/// One of a key's content, which isn't verified.
fn reflink_unchecked_sync(rt: HostRuntime, mut env: &mut Memory) -> Result<String> {
    cacache::write_sync(&mut env, "my-cache", "key", b"my data")?;
    cacache::reflink_unchecked_sync(&mut env, "my-cache", "key", "/my-copy")?; // on real folders it fails
    bytes_at(rt.alloc(), env, "/my-copy")
}

/// One of an integrity's content.
fn reflink_hash_sync(rt: HostRuntime, mut env: &mut Memory) -> Result<String> {
    let sri = cacache::write_hash_sync(&mut env, "my-cache", b"my data")?;
    cacache::reflink_hash_sync(&mut env, "my-cache", &sri, "/my-copy")?; // on real folders it fails
    bytes_at(rt.alloc(), env, "/my-copy")
}

/// One of an integrity's content, which isn't verified.
fn reflink_hash_unchecked_sync(rt: HostRuntime, mut env: &mut Memory) -> Result<String> {
    let sri = cacache::write_hash_sync(&mut env, "my-cache", b"my data")?;
    cacache::reflink_hash_unchecked_sync(&mut env, "my-cache", &sri, "/my-copy")?; // on real folders it fails
    bytes_at(rt.alloc(), env, "/my-copy")
}

/// What comes of the call of this name.
pub(crate) fn came(rt: HostRuntime, env: &mut Memory, name: &str) -> Result<String> {
    match name {
        "reflink_sync" => reflink_sync(rt, env),
        "reflink_unchecked_sync" => reflink_unchecked_sync(rt, env),
        "reflink_hash_sync" => reflink_hash_sync(rt, env),
        "reflink_hash_unchecked_sync" => reflink_hash_unchecked_sync(rt, env),
        _ => hard_links::came(rt, env, name),
    }
}
