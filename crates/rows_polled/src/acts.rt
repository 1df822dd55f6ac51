//! What a row does in an environment.
use crate::answers::{bytes_of, done, found, read};
use crate::linkers::linked_by_polls;
use crate::readers::read_by_polls;
use crate::writers::written;
use cacache_async::index::find_async;
use cacache_async::put::write;
use cacache_async::read::{read as read_key, read_hash};
use cacache_async::rm::clear;
use cacache_core::errors::Result as Answered;
use cacache_core::keeping::let_go;
use cacache_store::store::Store;
use cacache_writers::RemovableTemp;
use futures::executor::block_on;
use row_places::On;
use row_places::planting::{names_in, plant};
use rows::Flaw;
use rows::answers::given;
use rows::parts::integrity_of;
use rows::words::cut;
use std::alloc::{AllocError, AllocGlobal, Global};
use std::io;
use std::random::RandomSource;
use std::sync::Wait;

/// What the act is made on, and its steps.
pub(crate) fn parts_of(words: &str) -> (&str, &str) {
    words.split_once(": ").unwrap_or((words, ""))
}

/// How many names a folder has.
fn names<S: Store>(env: &mut On<S>, path: &str) -> Result<String, AllocError> {
    match names_in(env, path)? {
        Some(count) => format!(in env.alloc; "{count}"),
        None => String::from_str(env.alloc, "no folder"),
    }
}

/// Plants a file.
fn planted<S: Store>(env: &mut On<S>, words: &str) -> Result<String, AllocError> {
    let (path, text) = cut(words);
    let is_planted = plant(env, path, bytes_of(text))?;
    String::from_str(env.alloc, if is_planted { "Ok" } else { "not planted" })
}

/// What is left of a write that was never polled.
fn unpolled<S: Store>(env: &mut On<S>, words: &str) -> Result<String, AllocError> {
    let (cache, key) = cut(words);
    let_go(write(env, cache, key, b"hello"));
    names(env, cache)
}

/// The bytes that a future read.
fn bytes_read(alloc: Global, came: io::Result<Answered<Vec<u8>>>) -> Result<String, Flaw> {
    let bytes = given(came)?;
    Ok(read(alloc, bytes)?)
}

/// What a call with a future that is ready at once gives.
fn called<R: Wait + RandomSource + AllocGlobal, S: Store>(
    rt: &R,
    env: &mut On<S>,
    name: &str,
    words: &str,
) -> Result<String, Flaw> {
    let alloc = rt.alloc();
    let (cache, what) = cut(words);
    match name {
        "read" => bytes_read(alloc, block_on(rt, read_key(env, cache, what))),
        "read_hash" => {
            let sri = integrity_of(alloc, what)?;
            bytes_read(alloc, block_on(rt, read_hash(env, cache, &sri)))
        }
        "clear" => {
            let cleared = given(block_on(rt, clear(env, cache)))?;
            Ok(done(alloc, cleared)?)
        }
        "find" => {
            let entry = given(block_on(rt, find_async(env, cache, what)))?;
            Ok(found(alloc, entry)?)
        }
        _ => Err(Flaw::NotRead),
    }
}

/// What an act gives that is also made beside an open writer: it counts the names of a folder, or is such a call.
pub(crate) fn asked<R: Wait + RandomSource + AllocGlobal, S: Store>(
    rt: &R,
    env: &mut On<S>,
    act: &str,
) -> Result<String, Flaw> {
    let (name, words) = cut(act);
    match name {
        "names" => Ok(names(env, words)?),
        _ => called(rt, env, name, words),
    }
}

/// What an act gives.
pub(crate) fn made<R, S, T>(rt: &R, env: &mut On<S>, act: &str) -> Result<String, Flaw>
where
    R: Wait + RandomSource + AllocGlobal,
    S: Store<Temp = T>,
    T: RemovableTemp,
{
    let (name, words) = cut(act);
    let (on, steps) = parts_of(words);
    match name {
        "writer" => written(rt, env, on, steps),
        "reader" => read_by_polls(rt, env, on, steps),
        "linker" => linked_by_polls(rt, env, on, steps),
        "plant" => Ok(planted(env, words)?),
        "unpolled" => Ok(unpolled(env, words)?),
        _ => asked(rt, env, act),
    }
}
