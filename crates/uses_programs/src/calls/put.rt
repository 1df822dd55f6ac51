//! Calls that store.
use crate::calls::{links, printed, shown};
use anyhow::Result;
use cacache::env::Memory;

/// Bytes under a key.
fn write_sync(rt: HostRuntime, mut env: &mut Memory) -> Result<String> {
    let sri = cacache::write_sync(&mut env, "my-cache", "key", b"my data")?;
    let bytes = cacache::read_hash_sync(&mut env, "my-cache", &sri)?; // b"my data"
    shown(rt.alloc(), &bytes)
}

/// Bytes under a key, with an algorithm.
fn write_sync_with_algo(rt: HostRuntime, mut env: &mut Memory) -> Result<String> {
    let algo = cacache::Algorithm::Sha512;
    let sri = cacache::write_sync_with_algo(&mut env, algo, "my-cache", "key", b"my data")?;
    let algorithm = sri.pick_algorithm(); // Algorithm::Sha512
    printed(rt.alloc(), algorithm)
}

/// Bytes that are moved in.
fn write_vec_sync(rt: HostRuntime, mut env: &mut Memory) -> Result<String> {
    let alloc = rt.alloc();
    let data = Vec::from_slice(alloc, b"my data")?;
    let sri = cacache::write_vec_sync(&mut env, "my-cache", "key", data)?;
    let bytes = cacache::read_hash_sync(&mut env, "my-cache", &sri)?; // b"my data"
    shown(rt.alloc(), &bytes)
}

/// Bytes without a key.
fn write_hash_sync(rt: HostRuntime, mut env: &mut Memory) -> Result<String> {
    let alloc = rt.alloc();
    let sri = cacache::write_hash_sync(&mut env, "my-cache", b"hello")?;
    let text = sri.to_string(alloc)?; // sha256-LPJNul+wow4m6DsqxbninhsWHlwfp0JecwQzYpOLmCQ=
    Ok(text)
}

/// Bytes without a key, with an algorithm.
fn write_hash_sync_with_algo(rt: HostRuntime, mut env: &mut Memory) -> Result<String> {
    let algo = cacache::Algorithm::Sha512;
    let sri = cacache::write_hash_sync_with_algo(&mut env, algo, "my-cache", b"my data")?;
    let algorithm = sri.pick_algorithm(); // Algorithm::Sha512
    printed(rt.alloc(), algorithm)
}

/// What comes of the call of this name.
pub(crate) fn came(rt: HostRuntime, env: &mut Memory, name: &str) -> Result<String> {
    match name {
        "write_sync" => write_sync(rt, env),
        "write_sync_with_algo" => write_sync_with_algo(rt, env),
        "write_vec_sync" => write_vec_sync(rt, env),
        "write_hash_sync" => write_hash_sync(rt, env),
        "write_hash_sync_with_algo" => write_hash_sync_with_algo(rt, env),
        _ => links::came(rt, env, name),
    }
}
