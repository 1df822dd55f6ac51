//! Public calls as futures, each under the name of the call that it makes. Each function knows some of the names and hands
//! on the others; a call without a future gives None.
use crate::awaited::awaited;
use crate::lines::{done, exists, found, has, read};
use crate::options::options_of;
use crate::polled_exports::exported;
use crate::row::{Row, bytes_of};
use cacache::content::read::has_content_async;
use cacache::index::{RemoveAsync, delete_async, find_async, insert_async};
use cacache::store::Store;
use cacache::{Integrity, RemoveOpts};
use row_places::{MOMENT, On};
use rows::Flaw;
use rows::answers::stored;
use rows::parts::{algorithm_of, integrity_of};
use rows::words::{cut, string_of};
use std::alloc::AllocGlobal;
use std::random::RandomSource;
use std::sync::Wait;

/// What a row's act gives, if it is a call that has a future.
pub(crate) type Told = Result<Option<String>, Flaw>;

/// The line on a call by integrity.
fn by_hash<R: Wait + RandomSource + AllocGlobal, S: Store>(
    rt: &R,
    env: &mut On<S>,
    name: &str,
    cache: &str,
    sri: &Integrity,
) -> Told {
    let alloc = env.alloc;
    let line = match name {
        "read_hash_sync" => read(alloc, awaited(rt, cacache::read_hash(env, cache, sri))?),
        "exists_sync" => exists(alloc, awaited(rt, cacache::exists(env, cache, sri))?),
        "has_content" => has(alloc, awaited(rt, has_content_async(env, cache, sri))?),
        "remove_hash_sync" | "rm" => {
            done(alloc, awaited(rt, cacache::remove_hash(env, cache, sri))?)
        }
        _ => return Ok(None),
    };
    Ok(Some(line?))
}

/// The line on a call that stores these bytes, which is given an algorithm's name, the cache, and a key if it has
/// one.
fn storing_under<R: Wait + RandomSource + AllocGlobal, S: Store>(
    rt: &R,
    env: &mut On<S>,
    name: &str,
    words: &str,
    data: &[u8],
) -> Told {
    let alloc = env.alloc;
    let (algorithm, words) = cut(words);
    let (cache, key) = cut(words);
    let algo = algorithm_of(algorithm)?;
    let answer = if name == "write_sync_with_algo" {
        awaited(rt, cacache::write_with_algo(env, algo, cache, key, data))?
    } else {
        awaited(rt, cacache::write_hash_with_algo(env, algo, cache, data))?
    };
    Ok(Some(stored(alloc, answer)?))
}

/// The line on a call that stores these bytes.
fn storing<R: Wait + RandomSource + AllocGlobal, S: Store>(
    rt: &R,
    env: &mut On<S>,
    name: &str,
    words: &str,
    data: &[u8],
) -> Told {
    let alloc = env.alloc;
    let (cache, key) = cut(words);
    let answer = match name {
        "write_sync" => awaited(rt, cacache::write(env, cache, key, data))?,
        "write_hash_sync" => awaited(rt, cacache::write_hash(env, cache, data))?,
        "write_sync_with_algo" | "write_hash_sync_with_algo" => {
            return storing_under(rt, env, name, words, data);
        }
        _ => return Ok(None),
    };
    Ok(Some(stored(alloc, answer)?))
}

/// The line on a call that is given bytes or an integrity.
fn given<R: Wait + RandomSource + AllocGlobal, S: Store>(
    rt: &R,
    env: &mut On<S>,
    name: &str,
    words: &str,
    input: &str,
) -> Told {
    if name.starts_with("write_") {
        let bytes = bytes_of(env.alloc, input)?;
        return storing(rt, env, name, words, &bytes);
    }
    if !matches!(
        name,
        "read_hash_sync" | "exists_sync" | "has_content" | "remove_hash_sync" | "rm"
    ) {
        return Ok(None);
    }
    let (cache, text) = cut(words);
    let sri = integrity_of(env.alloc, text)?;
    by_hash(rt, env, name, cache, &sri)
}

/// The line on a removal by key.
fn removed<R: Wait + RandomSource + AllocGlobal, S: Store>(
    rt: &R,
    env: &mut On<S>,
    name: &str,
    words: &str,
    input: &str,
) -> Told {
    let alloc = env.alloc;
    let (cache, key) = cut(words);
    let opts = RemoveOpts::new().remove_fully(name == "remove_fully");
    let answer = match name {
        "delete" | "remove_sync" => awaited(rt, delete_async(env, cache, key))?,
        "remove_fully" | "remove_not_fully" => awaited(rt, opts.remove(env, cache, key))?,
        _ => return given(rt, env, name, words, input),
    };
    Ok(Some(done(alloc, answer)?))
}

/// The line on an insertion with a copy of the options: its key, and options.
fn inserted<R: Wait + RandomSource + AllocGlobal, S: Store>(
    rt: &R,
    env: &mut On<S>,
    cache: &str,
    words: &str,
) -> Told {
    let alloc = env.alloc;
    let (key, words) = cut(words);
    let opts = options_of(alloc, words)?;
    let answer = awaited(rt, insert_async(env, cache, key, opts))?;
    Ok(Some(stored(alloc, answer)?))
}

/// The line on a link by key or by integrity.
fn linked<R: Wait + RandomSource + AllocGlobal, S: Store>(
    rt: &R,
    env: &mut On<S>,
    name: &str,
    cache: &str,
    words: &str,
) -> Told {
    let alloc = env.alloc;
    let (key, target) = cut(words);
    let answer = if name == "link_to_sync" {
        awaited(rt, cacache::link_to(env, cache, key, target))?
    } else {
        awaited(rt, cacache::link_to_hash(env, cache, words))?
    };
    Ok(Some(stored(alloc, answer)?))
}

/// The line on a call by key, on one of a whole cache, or on a further one.
fn by_key<R: Wait + RandomSource + AllocGlobal, S: Store>(
    rt: &R,
    env: &mut On<S>,
    name: &str,
    words: &str,
    input: &str,
) -> Told {
    let alloc = env.alloc;
    let (cache, key) = cut(words);
    let line = match name {
        "read_sync" => read(alloc, awaited(rt, cacache::read(env, cache, key))?),
        "find" | "metadata_sync" => found(alloc, awaited(rt, find_async(env, cache, key))?),
        "clear_sync" => done(alloc, awaited(rt, cacache::clear(env, cache))?),
        "insert" => return inserted(rt, env, cache, key),
        "link_to_sync" | "link_to_hash_sync" => return linked(rt, env, name, cache, key),
        _ => return removed(rt, env, name, words, input),
    };
    Ok(Some(line?))
}

/// The line on a call; its words may have `\t` and the like.
fn called<R: Wait + RandomSource + AllocGlobal, S: Store>(
    rt: &R,
    env: &mut On<S>,
    row: Row<'_>,
) -> Told {
    let (name, words) = cut(row.act);
    if name == "export" {
        return exported(rt, env, words);
    }
    let words = string_of(env.alloc, words)?;
    by_key(rt, env, name, words.as_str(), row.input)
}

/// What the row's act gives, if it is a call that has a future.
pub(crate) fn polled<R: Wait + RandomSource + AllocGlobal, S: Store>(
    rt: &R,
    env: &mut On<S>,
    row: Row<'_>,
) -> Told {
    let (name, act) = cut(row.act);
    if name != "at" {
        return called(rt, env, row);
    }
    let (moment, act) = cut(act);
    env.clock.moment = moment.parse::<u64>().ok().unwrap_or(MOMENT);
    let line = called(rt, env, Row { act, ..row });
    env.clock.moment = MOMENT;
    line
}
