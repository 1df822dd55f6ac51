//! Files outside the cache that are one file with a content.
use crate::calls::{bytes_at, index};
use anyhow::Result;
use cacache::env::Memory;

/// One with a key's content.
fn hard_link_sync(rt: HostRuntime, mut env: &mut Memory) -> Result<String> {
    cacache::write_sync(&mut env, "my-cache", "key", b"my data")?;
    cacache::hard_link_sync(&mut env, "my-cache", "key", "/my-link")?; // /my-link has b"my data"
    bytes_at(rt.alloc(), env, "/my-link")
}

/// One with a key's content, which isn't verified.
fn hard_link_unchecked_sync(rt: HostRuntime, mut env: &mut Memory) -> Result<String> {
    cacache::write_sync(&mut env, "my-cache", "key", b"my data")?;
    cacache::hard_link_unchecked_sync(&mut env, "my-cache", "key", "/my-link")?; // it has b"my data"
    bytes_at(rt.alloc(), env, "/my-link")
}

/// One with an integrity's content.
fn hard_link_hash_sync(rt: HostRuntime, mut env: &mut Memory) -> Result<String> {
    let sri = cacache::write_hash_sync(&mut env, "my-cache", b"my data")?;
    cacache::hard_link_hash_sync(&mut env, "my-cache", &sri, "/my-link")?; // /my-link has b"my data"
    bytes_at(rt.alloc(), env, "/my-link")
}

/// One with an integrity's content, which isn't verified.
fn hard_link_hash_unchecked_sync(rt: HostRuntime, mut env: &mut Memory) -> Result<String> {
    let sri = cacache::write_hash_sync(&mut env, "my-cache", b"my data")?;
    cacache::hard_link_hash_unchecked_sync(&mut env, "my-cache", &sri, "/my-link")?; // it has b"my data"
    bytes_at(rt.alloc(), env, "/my-link")
}

/// What comes of the call of this name.
pub(crate) fn came(rt: HostRuntime, env: &mut Memory, name: &str) -> Result<String> {
    match name {
        "hard_link_sync" => hard_link_sync(rt, env),
        "hard_link_unchecked_sync" => hard_link_unchecked_sync(rt, env),
        "hard_link_hash_sync" => hard_link_hash_sync(rt, env),
        "hard_link_hash_unchecked_sync" => hard_link_hash_unchecked_sync(rt, env),
        _ => index::came(rt, env, name),
    }
}
