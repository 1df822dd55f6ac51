//! Calls that remove.
use crate::calls::{printed, writers};
use anyhow::Result;
use cacache::env::Memory;

/// A content.
fn remove_hash_sync(rt: HostRuntime, mut env: &mut Memory) -> Result<String> {
    let sri = cacache::write_hash_sync(&mut env, "my-cache", b"my data")?;
    cacache::remove_hash_sync(&mut env, "my-cache", &sri)?;
    let there = cacache::exists_sync(&mut env, "my-cache", &sri)?; // false
    printed(rt.alloc(), there)
}

/// All that a cache holds.
fn clear_sync(rt: HostRuntime, mut env: &mut Memory) -> Result<String> {
    let sri = cacache::write_hash_sync(&mut env, "my-cache", b"my data")?;
    cacache::clear_sync(&mut env, "my-cache")?;
    let there = cacache::exists_sync(&mut env, "my-cache", &sri)?; // false
    printed(rt.alloc(), there)
}

/// A key and its content.
fn remove_fully(rt: HostRuntime, mut env: &mut Memory) -> Result<String> {
    let sri = cacache::write_sync(&mut env, "my-cache", "key", b"my data")?;
    let opts = cacache::RemoveOpts::new().remove_fully(true);
    opts.remove_sync(&mut env, "my-cache", "key")?;
    let there = cacache::exists_sync(&mut env, "my-cache", &sri)?; // false
    printed(rt.alloc(), there)
}

/// What comes of the call of this name.
pub(crate) fn came(rt: HostRuntime, env: &mut Memory, name: &str) -> Result<String> {
    match name {
        "remove_hash_sync" => remove_hash_sync(rt, env),
        "clear_sync" => clear_sync(rt, env),
        "RemoveOpts::remove_sync" => remove_fully(rt, env),
        _ => writers::came(rt, env, name),
    }
}
