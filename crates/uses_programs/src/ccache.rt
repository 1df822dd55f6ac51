//! A compiler cache: `compile CACHE OUT INPUT..` compiles, or takes what an earlier run compiled; `stats CACHE` counts. The key is the
//! digest of the inputs, and an entry leads to an object. Its metadata name the content with what the compiler printed.
use anyhow::{Context, Result, bail};
use cacache::env::{Clock, Env, Names, folders};
use cacache::integrity::IntegrityOpts;
use cacache::store::Store;
use cacache::{
    ExportMode, Integrity, Metadata, Value, WriteOpts, export_hash_sync, list_sync, metadata_sync,
    read_hash_sync, write_hash_sync,
};
use std::fs;
use std::io::Write;

/// What a compilation gives.
#[derive(Drop)]
struct Output {
    object: String,
    printed: String,
}

/// The key of these inputs: the digest of the compiler's version, and of each input's name and bytes.
fn key_of(rt: HostRuntime, inputs: &[&str]) -> Result<String> {
    let alloc = rt.alloc();
    let mut hash = IntegrityOpts::new();
    hash.input(b"compiler 1\0");
    for input in inputs {
        let bytes = fs::read(&rt, *input)?;
        hash.input(format!(in alloc; "{input}\0{}\0", bytes.len())?.as_bytes());
        hash.input(&bytes);
    }
    let (_, digits) = hash.result(alloc)?.to_hex(alloc)?;
    Ok(format!(in alloc; "object:{digits}")?)
}

/// "Compiles" a text: turns its lines round.
fn translate(text: &str, object: &mut String) -> Result<()> {
    for line in text.lines() {
        object.extend(line.chars().rev())?;
        object.push('\n')?;
    }
    Ok(())
}

/// Compiles the inputs.
fn compile(rt: HostRuntime, inputs: &[&str]) -> Result<Output> {
    let mut object = String::new(rt.alloc());
    let mut printed = String::new(rt.alloc());
    for input in inputs {
        let text = fs::read_to_string(&rt, *input)?;
        translate(text.as_str(), &mut object)?;
        writeln!(printed, "{input}: warning: {} bytes", text.len())?;
    }
    Ok(Output { object, printed })
}

/// Stores the object and what was printed under the key.
fn store<S: Store, C: Clock, N: Names>(
    env: &mut Env<S, C, N>,
    cache: &str,
    key: &str,
    output: &Output,
) -> Result<()> {
    let printed = write_hash_sync(env, cache, output.printed.as_bytes())?;
    let meta = serde_json::json!(in env.alloc; {"printed": printed.to_string(env.alloc)?})?;
    let mut writer = WriteOpts::new().metadata(meta).open_sync(env, cache, key)?;
    writer.write_all(output.object.as_bytes())?;
    writer.commit(env)?;
    Ok(())
}

/// What the compiler printed for this entry.
fn printed<S: Store, C: Clock, N: Names>(
    env: &mut Env<S, C, N>,
    cache: &str,
    entry: &Metadata,
) -> Result<Vec<u8>> {
    let text = entry.metadata.get("printed").and_then(Value::as_str);
    let text = text.context("an entry without what was printed")?;
    let printed = Integrity::parse(env.alloc, text)?;
    Ok(read_hash_sync(env, cache, &printed)?)
}

/// The entry of these inputs. Compiles them if there is none.
fn entry_of<S: Store, C: Clock, N: Names>(
    rt: HostRuntime,
    env: &mut Env<S, C, N>,
    cache: &str,
    inputs: &[&str],
) -> Result<Metadata> {
    let key = key_of(rt, inputs)?;
    if let Some(entry) = metadata_sync(env, cache, key.as_str())? {
        return Ok(entry);
    }
    store(env, cache, key.as_str(), &compile(rt, inputs)?)?;
    metadata_sync(env, cache, key.as_str())?.context("the entry is gone")
}

/// Puts the object of these inputs at `out`, and prints what the compiler printed.
fn build<S: Store, C: Clock, N: Names>(
    rt: HostRuntime,
    env: &mut Env<S, C, N>,
    cache: &str,
    out: &str,
    inputs: &[&str],
) -> Result<()> {
    let entry = entry_of(rt, env, cache, inputs)?;
    let exported = export_hash_sync(env, cache, &entry.integrity, out, ExportMode::Shared)?;
    let bytes = printed(env, cache, &entry)?;
    Ok(println!(rt; "{}{out}: {exported:?}", str::from_utf8(&bytes)?)?)
}

/// Counts the objects and their bytes.
fn stats<S: Store, C: Clock, N: Names>(
    rt: HostRuntime,
    env: &mut Env<S, C, N>,
    cache: &str,
) -> Result<()> {
    let (mut count, mut bytes) = (0u64, 0u64);
    for entry in list_sync(env, cache)? {
        let entry = entry?;
        if entry.key.starts_with("object:") {
            count = count.saturating_add(1);
            bytes = bytes.saturating_add(entry.size as u64);
        }
    }
    Ok(println!(rt; "{count} objects, {bytes} bytes")?)
}

/// Runs one command.
pub(crate) fn run(rt: HostRuntime, words: &[&str]) -> Result<()> {
    let mut env = folders(rt, "/")?;
    match words {
        ["compile", cache, out, inputs @ ..] => build(rt, &mut env, cache, out, inputs),
        ["stats", cache] => stats(rt, &mut env, cache),
        _ => bail!("usage: ccache compile CACHE OUT INPUT.. | ccache stats CACHE"),
    }
}
