//! Calls as words, as `put k hello 5 -`: the kind, the key, and what it needs.
use crate::calls::words::bytes_of;
use cacache_calls::{Command, Delete, Export, How, Insert, Json, Link, Options, Put, Source};
use cacache_core::integrity::Algorithm;
use cacache_core::keeping::beside;
use cacache_core::text::Text;
use rows::Flaw;
use rows::parts::{expected_of, integrity_of, size_of};
use rows::words::{cut, is_nothing};
use serde_json::Value;
use std::alloc::Global;

/// The time of each entry.
const MOMENT: u128 = 7;

/// The options that a size and an integrity make, and perhaps `durable`.
fn options_of(alloc: Global, words: &str) -> Result<Options, Flaw> {
    let (size, integrity) = cut(words);
    let size = size_of(size)?;
    let (integrity, durable) = cut(integrity);
    let integrity = expected_of(alloc, integrity)?;
    Ok(Options {
        algorithm: Algorithm::Sha256,
        size,
        integrity,
        metadata: Json::new(Value::Null),
        raw_metadata: None,
        durable: durable == "durable",
    })
}

/// The key that a word gives, if any.
fn key_of(alloc: Global, word: &str) -> Result<Option<Text>, Flaw> {
    if is_nothing(word) {
        return Ok(None);
    }
    Ok(Some(Text::from_str(alloc, word)?))
}

/// A put: the key, the bytes, the size and the integrity.
fn put_of(alloc: Global, words: &str) -> Result<Command, Flaw> {
    let (key, rest) = cut(words);
    let (data, rest) = cut(rest);
    let key = key_of(alloc, key)?;
    let (data, key) = beside(bytes_of(alloc, data), key)?;
    let (options, (key, data)) = beside(options_of(alloc, rest), (key, data))?;
    Ok(Command::Put(Put {
        key,
        data,
        moment: MOMENT,
        options,
    }))
}

/// A link: the key, the target, the size and the integrity.
fn link_of(alloc: Global, words: &str) -> Result<Command, Flaw> {
    let (key, rest) = cut(words);
    let (target, rest) = cut(rest);
    let key = key_of(alloc, key)?;
    let (target, key) = beside(Text::from_str(alloc, target), key)?;
    let (options, (key, target)) = beside(options_of(alloc, rest), (key, target))?;
    Ok(Command::Link(Link {
        key,
        target,
        moment: MOMENT,
        options,
    }))
}

/// An insertion: the key, the size and the integrity.
fn insert_of(alloc: Global, words: &str) -> Result<Command, Flaw> {
    let (key, rest) = cut(words);
    let key = Text::from_str(alloc, key)?;
    let (options, key) = beside(options_of(alloc, rest), key)?;
    Ok(Command::Insert(Insert {
        key,
        moment: MOMENT,
        options,
    }))
}

/// A deletion.
fn delete_of(key: Text) -> Command {
    Command::Delete(Delete {
        key,
        moment: MOMENT,
    })
}

/// What an export names: `key k`, or `hash` with an integrity.
fn source_of(alloc: Global, kind: &str, word: &str) -> Result<Source, Flaw> {
    match kind {
        "key" => Ok(Source::Key(Text::from_str(alloc, word)?)),
        "hash" => Ok(Source::Hash(integrity_of(alloc, word)?)),
        _ => Err(Flaw::NotRead),
    }
}

/// An export: `checked` or not, what it names, and where it goes.
fn export_of(alloc: Global, how: How, words: &str) -> Result<Command, Flaw> {
    let (checked, rest) = cut(words);
    let (kind, rest) = cut(rest);
    let (name, to) = cut(rest);
    let source = source_of(alloc, kind, name)?;
    let (to, source) = beside(Text::from_str(alloc, to), source)?;
    let checked = checked == "checked";
    Ok(Command::Export(source, Export { how, checked, to }))
}

/// A call on a key alone.
fn on_key(alloc: Global, kind: &str, word: &str) -> Result<Command, Flaw> {
    let key = Text::from_str(alloc, word)?;
    match kind {
        "delete" => Ok(delete_of(key)),
        "find" => Ok(Command::Find(key)),
        "get" => Ok(Command::Get(key)),
        "remove_fully" => Ok(Command::RemoveFully(key)),
        _ => Err(Flaw::NotRead),
    }
}

/// A call on an integrity alone.
fn on_hash(alloc: Global, kind: &str, word: &str) -> Result<Command, Flaw> {
    let integrity = integrity_of(alloc, word)?;
    match kind {
        "get_hash" => Ok(Command::GetHash(integrity)),
        "exists" => Ok(Command::Exists(integrity)),
        "remove_hash" => Ok(Command::RemoveHash(integrity)),
        _ => Err(Flaw::NotRead),
    }
}

/// The call that words say.
pub(crate) fn command_of(alloc: Global, words: &str) -> Result<Command, Flaw> {
    let (kind, rest) = cut(words);
    match kind {
        "put" => put_of(alloc, rest),
        "link" => link_of(alloc, rest),
        "insert" => insert_of(alloc, rest),
        "copy" => export_of(alloc, How::Copy, rest),
        "reflink" => export_of(alloc, How::Reflink, rest),
        "hard_link" => export_of(alloc, How::HardLink, rest),
        "ls" => Ok(Command::Ls),
        "clear" => Ok(Command::Clear),
        "delete" | "find" | "get" | "remove_fully" => on_key(alloc, kind, rest),
        _ => on_hash(alloc, kind, rest),
    }
}
