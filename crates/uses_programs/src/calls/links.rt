//! Links to a file outside the cache, which become contents.
use crate::calls::{get, printed, shown, two};
use anyhow::Result;
use cacache::env::Memory;
use std::io::Read;

/// One under a key.
fn link_to_sync(rt: HostRuntime, mut env: &mut Memory) -> Result<String> {
    env.store.plant("/my-file", b"hello")?;
    let sri = cacache::link_to_sync(&mut env, "my-cache", "key", "/my-file")?;
    let bytes = cacache::read_hash_sync(&mut env, "my-cache", &sri)?; // those of /my-file
    shown(rt.alloc(), &bytes)
}

/// One without a key.
fn link_to_hash_sync(rt: HostRuntime, mut env: &mut Memory) -> Result<String> {
    env.store.plant("/my-file", b"hello")?;
    let sri = cacache::link_to_hash_sync(&mut env, "my-cache", "/my-file")?;
    let bytes = cacache::read_hash_sync(&mut env, "my-cache", &sri)?; // those of /my-file
    shown(rt.alloc(), &bytes)
}

/// One under a key, which reads the file on the way.
fn open(rt: HostRuntime, mut env: &mut Memory) -> Result<String> {
    let alloc = rt.alloc();
    env.store.plant("/my-file", b"hello")?;
    let mut linker = cacache::SyncToLinker::open(&mut env, "my-cache", "key", "/my-file")?;
    let mut bytes = Vec::new(alloc);
    linker.read_to_end(&mut bytes)?; // bytes are those of /my-file
    let sri = linker.commit(&mut env)?; // nothing was saved before
    let bytes = shown(alloc, &bytes)?;
    two(alloc, bytes, sri)
}

/// One without a key; only the commit reads its file.
fn open_hash(rt: HostRuntime, mut env: &mut Memory) -> Result<String> {
    env.store.plant("/my-file", b"hello")?;
    let linker = cacache::SyncToLinker::open_hash(&mut env, "my-cache", "/my-file")?;
    let sri = linker.commit(&mut env)?; // nothing was saved before
    printed(rt.alloc(), sri)
}

/// What comes of the call of this name.
pub(crate) fn came(rt: HostRuntime, env: &mut Memory, name: &str) -> Result<String> {
    match name {
        "link_to_sync" => link_to_sync(rt, env),
        "link_to_hash_sync" => link_to_hash_sync(rt, env),
        "SyncToLinker::open" => open(rt, env),
        "SyncToLinker::open_hash" => open_hash(rt, env),
        _ => get::came(rt, env, name),
    }
}
