//! Contents that are read in pieces.
use crate::calls::{shown, two};
use anyhow::Result;
use cacache::env::Memory;
use std::io::Read;

/// A reader of a key's content.
fn open(rt: HostRuntime, mut env: &mut Memory) -> Result<String> {
    let alloc = rt.alloc();
    cacache::write_sync(&mut env, "my-cache", "key", b"my data")?;
    let mut reader = cacache::SyncReader::open(&mut env, "my-cache", "key")?;
    let mut bytes = Vec::new(alloc);
    reader.read_to_end(&mut bytes)?; // bytes are b"my data", which aren't checked yet
    let algorithm = reader.check()?; // Algorithm::Sha256
    let bytes = shown(alloc, &bytes)?;
    two(alloc, bytes, algorithm)
}

/// A reader of an integrity's content.
fn open_hash(rt: HostRuntime, mut env: &mut Memory) -> Result<String> {
    let alloc = rt.alloc();
    let sri = cacache::write_hash_sync(&mut env, "my-cache", b"my data")?;
    let mut reader = cacache::SyncReader::open_hash(&mut env, "my-cache", sri)?;
    let mut text = String::new(alloc);
    reader.read_to_string(&mut text)?; // text is "my data", which isn't checked yet
    let algorithm = reader.check()?; // Algorithm::Sha256
    two(alloc, text, algorithm)
}

/// What comes of the call of this name.
pub(crate) fn came(rt: HostRuntime, env: &mut Memory, name: &str) -> Result<String> {
    match name {
        "SyncReader::open" => open(rt, env),
        "SyncReader::open_hash" => open_hash(rt, env),
        _ => shown(rt.alloc(), b"no such call"),
    }
}
