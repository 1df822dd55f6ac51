//! A download cache: `get CACHE NAME INTEGRITY OUT MIRROR..` copies a file out of the cache, and downloads it first if it is
//! missing or damaged; `prune CACHE BYTES` drops the oldest files. A mirror is a folder with the file NAME, and with its headers in
//! NAME.headers, as lines `name: value`.
use anyhow::{Result, bail};
use cacache::env::{Clock, Env, Names, folders};
use cacache::errors::{Fault, is_damage};
use cacache::store::Store;
use cacache::{Error, Integrity, Value, WriteOpts, copy_hash_sync, index, metadata_sync};
use cacache_keep::{Limits, Pruned, Stamps, prune};
use std::collections::BTreeMap;
use std::fs::{self, File};
use std::io::{self, Seek, SeekFrom, Write};

/// Where a file came from.
#[derive(Clone, Copy, Debug)]
enum Origin {
    Hit,
    Miss,
    Repaired,
}

/// The headers of a file on a mirror, as JSON.
fn headers_of(rt: HostRuntime, mirror: &str, name: &str) -> Result<Value> {
    let alloc = rt.alloc();
    let path = format!(in alloc; "{mirror}/{name}.headers")?;
    let text = fs::read_to_string(&rt, path.as_str())?;
    let mut headers = BTreeMap::new(alloc);
    for line in text.lines() {
        if let Some((header, value)) = line.split_once(": ") {
            let value = Value::String(String::from_str(alloc, value)?);
            headers.insert(String::from_str(alloc, header)?, value)?;
        }
    }
    Ok(Value::Object(headers))
}

/// Writes what a mirror has of a file from `done` on. Returns how many bytes that are.
fn resume<W: Write>(rt: HostRuntime, path: &str, done: u64, writer: &mut W) -> Result<u64> {
    let mut file = File::open(&rt, path)?;
    file.seek(SeekFrom::Start(done))?;
    Ok(io::copy(&mut file, writer)?)
}

/// The `content-length` of headers.
fn length_of(headers: &Value) -> Option<u64> {
    headers.get("content-length")?.as_str()?.parse().ok()
}

/// What a download gave: its length in bytes, and the headers of the mirror that had its end.
#[derive(Drop)]
struct Downloaded {
    length: u64,
    headers: Value,
}

/// Writes a file from the mirrors in turn; a later one goes on from what an earlier one gave.
fn pull<W: Write>(
    rt: HostRuntime,
    name: &str,
    mirrors: &[&str],
    writer: &mut W,
) -> Result<Downloaded> {
    let mut length: u64 = 0;
    for mirror in mirrors {
        let Ok(headers) = headers_of(rt, mirror, name) else {
            continue;
        };
        let path = format!(in rt.alloc(); "{mirror}/{name}")?;
        length = length.saturating_add(resume(rt, path.as_str(), length, writer).unwrap_or(0));
        if length_of(&headers) == Some(length) {
            return Ok(Downloaded { length, headers });
        }
    }
    bail!("{name}: no mirror has the end of it, {length} bytes came")
}

/// Downloads a file into the cache. Its entry has the headers.
fn download<S: Store, C: Clock, N: Names>(
    rt: HostRuntime,
    env: &mut Env<S, C, N>,
    cache: &str,
    name: &str,
    sri: &Integrity,
    mirrors: &[&str],
) -> Result<()> {
    let opts = WriteOpts::new()
        .algorithm(sri.pick_algorithm())
        .integrity(sri.clone()?);
    let mut writer = opts.open_hash_sync(env, cache)?;
    let Downloaded { length, headers } = pull(rt, name, mirrors, &mut writer)?;
    let stored = writer.commit(env)?;
    let opts = WriteOpts::new()
        .integrity(stored)
        .size(length as usize)
        .metadata(headers);
    index::insert(env, cache, name, opts)?;
    Ok(())
}

/// Copies a file out of the cache to `out`. Says where it would have to come from if the cache lacks it, or has it damaged.
fn take<S: Store, C: Clock, N: Names>(
    env: &mut Env<S, C, N>,
    cache: &str,
    sri: &Integrity,
    out: &str,
) -> Result<Origin> {
    match copy_hash_sync(env, cache, sri, out) {
        Ok(_) => Ok(Origin::Hit),
        Err(error) if error.fault() == Some(Fault::NotFound) => Ok(Origin::Miss),
        Err(error) if is_damage(&error) => Ok(Origin::Repaired),
        Err(error) => Err(error.into()),
    }
}

/// Gets a file from the cache or a mirror, and copies it to `out`.
fn get<S: Store, C: Clock, N: Names>(
    rt: HostRuntime,
    env: &mut Env<S, C, N>,
    words: [&str; 4],
    mirrors: &[&str],
) -> Result<Origin> {
    let [cache, name, sri, out] = words;
    let sri = Integrity::parse(rt.alloc(), sri)?;
    let origin = take(env, cache, &sri, out)?;
    if !matches!(origin, Origin::Hit) {
        download(rt, env, cache, name, &sri, mirrors)?;
        copy_hash_sync(env, cache, &sri, out)?;
    }
    Ok(origin)
}

/// Drops the oldest files until the others have at most so many bytes.
fn shrink<S: Stamps, C: Clock, N: Names>(
    rt: HostRuntime,
    env: &mut Env<S, C, N>,
    cache: &str,
    bytes: u64,
) -> Result<()> {
    let limits = Limits {
        bytes: Some(bytes),
        since: None,
    };
    let Pruned {
        dropped,
        left: _,
        bytes_before,
        bytes_after,
        collected,
    } = prune(env, cache, limits)?;
    for entry in &dropped {
        println!(rt; "dropped {} ({} bytes)", entry.key, entry.size)?;
    }
    println!(rt; "{bytes_after} of {bytes_before} bytes are kept")?;
    collected?;
    Ok(())
}

/// Runs one command.
pub(crate) fn run(rt: HostRuntime, words: &[&str]) -> Result<()> {
    let mut env = folders(rt, "/")?;
    match words {
        ["get", cache, name, sri, out, mirrors @ ..] => {
            let origin = get(rt, &mut env, [cache, name, sri, out], mirrors)?;
            println!(rt; "{name}: {origin:?}")?;
            Ok(())
        }
        ["prune", cache, bytes] => shrink(rt, &mut env, cache, bytes.parse()?),
        _ => bail!("usage: fetch get CACHE NAME INTEGRITY OUT MIRROR.. | fetch prune CACHE BYTES"),
    }
}
