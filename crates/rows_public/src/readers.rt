//! Contents that are read in pieces: how the reader is opened, the cache, the key or the integrity's text, how many
//! bytes are read at first, and what is done then. The input is the path of the content if that is spoilt, or how many
//! bytes an output takes.
use crate::lines::{copied, pair};
use crate::row::shown;
use crate::streams::Output;
use cacache::content::read::open;
use cacache::store::{OpenedFile, Store};
use cacache::{Result as Answered, SyncReader};
use cacache_core::keeping::let_go;
use row_places::On;
use row_places::planting::{plant, remove_file};
use rows::Flaw;
use rows::answers::{checked, refused};
use rows::parts::integrity_of;
use rows::words::{cut, number_of};
use std::alloc::{AllocError, Global};
use std::io::Read;

/// A reader that is opened in one of the ways, if the word is one.
fn opened<S: Store>(
    env: &mut On<S>,
    way: &str,
    cache: &str,
    what: &str,
) -> Result<Answered<SyncReader<S::File>>, Flaw> {
    if way == "open" {
        return Ok(SyncReader::open(env, cache, what));
    }
    let sri = integrity_of(env.alloc, what)?;
    match way {
        "open_hash" => Ok(SyncReader::open_hash(env, cache, sri)),
        "content" => Ok(open(env, cache, sri)),
        _ => Err(Flaw::NotRead),
    }
}

/// The line on so many bytes of a reader, or on its failure.
pub(crate) fn first_of<R: Read>(
    alloc: Global,
    reader: &mut R,
    count: usize,
) -> Result<String, AllocError> {
    let mut bytes = vec![in alloc; 0; count]?;
    match reader.read_exact(&mut bytes) {
        Ok(()) => shown(alloc, &bytes),
        Err(_) => String::from_str(alloc, "failed"),
    }
}

/// The line on the rest of a reader, or on its failure.
fn rest_of<R: Read>(alloc: Global, reader: &mut R) -> Result<String, AllocError> {
    let mut text = String::new(alloc);
    match reader.read_to_string(&mut text) {
        Ok(_) => shown(alloc, text.as_str().as_bytes()),
        Err(_) => String::from_str(alloc, "failed"),
    }
}

/// What is done between the first bytes and the rest: `gone` removes the content, and `anew` makes it anew as `hello`.
fn spoil<S: Store>(env: &mut On<S>, then: &str, path: &str) -> Result<bool, AllocError> {
    match then {
        "gone" => remove_file(env, path),
        "anew" => plant(env, path, b"hello"),
        _ => Ok(true),
    }
}

/// The lines on the first bytes of a reader, and on the rest after `rest`, `gone` and `anew`.
fn parts_of<S: Store>(
    env: &mut On<S>,
    reader: &mut SyncReader<S::File>,
    then: &str,
    count: usize,
    path: &str,
) -> Result<String, AllocError> {
    let alloc = env.alloc;
    let first = first_of(alloc, reader, count);
    if matches!(then, "stop" | "drop" | "finish" | "copy") {
        return first;
    }
    let _is_spoilt = spoil(env, then, path)?;
    pair(alloc, first, rest_of(alloc, reader))
}

/// The lines on what a reader copies to an output with room for so many bytes, and on its answer.
fn copied_out<F: OpenedFile>(
    alloc: Global,
    reader: SyncReader<F>,
    room: &str,
) -> Result<String, AllocError> {
    let mut output = Output::new(alloc, room.parse::<usize>().unwrap_or(usize::MAX));
    let answer = copied(alloc, reader.copy_to(&mut output));
    pair(alloc, shown(alloc, &output.taken), answer)
}

/// The line on the end of a reader: its check, or what reads its rest by one call.
fn ended<F: OpenedFile>(
    alloc: Global,
    reader: SyncReader<F>,
    then: &str,
    room: &str,
) -> Result<String, AllocError> {
    match then {
        "finish" => checked(alloc, reader.finish()),
        "copy" => copied_out(alloc, reader, room),
        _ => checked(alloc, reader.check()),
    }
}

/// The line on the parts of a reader and on its end, except after `drop`; or why it wasn't opened.
fn told<S: Store>(
    env: &mut On<S>,
    opened: Answered<SyncReader<S::File>>,
    then: &str,
    count: usize,
    path: &str,
) -> Result<String, AllocError> {
    let mut reader = match opened {
        Ok(reader) => reader,
        Err(error) => return refused(env.alloc, error),
    };
    let parts = parts_of(env, &mut reader, then, count, path);
    if then == "drop" {
        let_go(reader);
        return parts;
    }
    pair(env.alloc, parts, ended(env.alloc, reader, then, path))
}

/// The line on a reader.
pub(crate) fn read<S: Store>(env: &mut On<S>, words: &str, path: &str) -> Result<String, Flaw> {
    let (way, words) = cut(words);
    let (cache, words) = cut(words);
    let (what, words) = cut(words);
    let (count, then) = cut(words);
    let count = number_of(count)?;
    let opened = opened(env, way, cache, what)?;
    Ok(told(env, opened, then, count, path)?)
}
