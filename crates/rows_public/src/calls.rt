//! Public calls that give one answer. A call's name is followed by the cache and whatever else the call is given.
//! Each function knows some of the names and hands on the others.
use crate::lines::{contents, done, exists, first, found, has, listed, read};
use crate::options::options_of;
use crate::row::{Row, bytes_of};
use cacache::content::path::content_path;
use cacache::content::read::{has_content, list};
use cacache::content::rm::rm;
use cacache::errors::Fault;
use cacache::index::{delete, find, insert, ls};
use cacache::store::Store;
use cacache::text::Text;
use cacache::{Algorithm, Error, Integrity, RemoveOpts, WriteOpts};
use cacache_core::keeping::let_go;
use row_places::On;
use rows::Flaw;
use rows::answers::stored;
use rows::parts::{algorithm_of, integrity_of};
use rows::words::{cut, string_of};
use std::alloc::{AllocError, Global};
use std::cell::Cell;

/// The line on a removal by integrity.
fn removed_by_hash<S: Store>(
    env: &mut On<S>,
    name: &str,
    cache: &str,
    sri: &Integrity,
) -> Result<String, Flaw> {
    let answer = match name {
        "remove_hash_sync" => cacache::remove_hash_sync(env, cache, sri),
        "rm" => rm(env, cache, sri),
        _ => return Err(Flaw::NotRead),
    };
    Ok(done(env.alloc, answer)?)
}

/// The line on a call by integrity.
fn by_hash<S: Store>(
    env: &mut On<S>,
    name: &str,
    cache: &str,
    sri: &Integrity,
) -> Result<String, Flaw> {
    let alloc = env.alloc;
    let line = match name {
        "read_hash_sync" => read(alloc, cacache::read_hash_sync(env, cache, sri)),
        "exists_sync" => exists(alloc, cacache::exists_sync(env, cache, sri)),
        "has_content" => has(alloc, has_content(env, cache, sri)),
        "content_path" => return Ok(content_path(alloc, cache, sri)?.into_string()),
        _ => return removed_by_hash(env, name, cache, sri),
    };
    Ok(line?)
}

/// The line on a call into which these bytes are moved.
fn storing_vec_under<S: Store>(
    env: &mut On<S>,
    name: &str,
    algo: Algorithm,
    words: &str,
    bytes: &[u8],
) -> Result<String, Flaw> {
    let alloc = env.alloc;
    let (cache, key) = cut(words);
    let bytes = Vec::from_slice(alloc, bytes)?;
    let result = match name {
        "write_vec_sync_with_algo" => {
            cacache::write_vec_sync_with_algo(env, algo, cache, key, bytes)
        }
        "write_hash_vec_sync_with_algo" => {
            cacache::write_hash_vec_sync_with_algo(env, algo, cache, bytes)
        }
        _ => return Err(Flaw::NotRead),
    };
    Ok(stored(alloc, result)?)
}

/// The line on a call that stores these bytes, which is given an algorithm's name, the cache, and a key if it has
/// one.
fn storing_under<S: Store>(
    env: &mut On<S>,
    name: &str,
    words: &str,
    bytes: &[u8],
) -> Result<String, Flaw> {
    let alloc = env.alloc;
    let (algorithm, words) = cut(words);
    let (cache, key) = cut(words);
    let algo = algorithm_of(algorithm)?;
    let line = match name {
        "write_sync_with_algo" => {
            stored(
                alloc,
                cacache::write_sync_with_algo(env, algo, cache, key, bytes),
            )
        }
        "write_hash_sync_with_algo" => {
            stored(
                alloc,
                cacache::write_hash_sync_with_algo(env, algo, cache, bytes),
            )
        }
        _ => return storing_vec_under(env, name, algo, words, bytes),
    };
    Ok(line?)
}

/// The line on a call that stores these bytes.
fn storing<S: Store>(
    env: &mut On<S>,
    name: &str,
    words: &str,
    bytes: &[u8],
) -> Result<String, Flaw> {
    let alloc = env.alloc;
    let (cache, key) = cut(words);
    let line = match name {
        "write_sync" => stored(alloc, cacache::write_sync(env, cache, key, bytes)),
        "write_hash_sync" => stored(alloc, cacache::write_hash_sync(env, cache, bytes)),
        "write_vec_sync" => {
            let bytes = Vec::from_slice(alloc, bytes)?;
            stored(alloc, cacache::write_vec_sync(env, cache, key, bytes))
        }
        "write_hash_vec_sync" => {
            let bytes = Vec::from_slice(alloc, bytes)?;
            stored(alloc, cacache::write_hash_vec_sync(env, cache, bytes))
        }
        _ => return storing_under(env, name, words, bytes),
    };
    Ok(line?)
}

/// The line on a call that is given bytes or an integrity.
fn given<S: Store>(env: &mut On<S>, name: &str, words: &str, input: &str) -> Result<String, Flaw> {
    if name.starts_with("write_") {
        let bytes = bytes_of(env.alloc, input)?;
        return storing(env, name, words, &bytes);
    }
    let (cache, text) = cut(words);
    let sri = integrity_of(env.alloc, text)?;
    by_hash(env, name, cache, &sri)
}

/// The line on a removal by key.
fn removed<S: Store>(
    env: &mut On<S>,
    name: &str,
    words: &str,
    input: &str,
) -> Result<String, Flaw> {
    let (cache, key) = cut(words);
    let opts = RemoveOpts::new().remove_fully(name == "remove_fully");
    let answer = match name {
        "delete" => delete(env, cache, key),
        "remove_sync" => cacache::remove_sync(env, cache, key),
        "remove_fully" | "remove_not_fully" => opts.remove_sync(env, cache, key),
        _ => return given(env, name, words, input),
    };
    Ok(done(env.alloc, answer)?)
}

/// What somebody else has for a key: these bytes, or an error if the word is `lost`.
fn fetched(alloc: Global, input: &str) -> cacache::Result<Vec<u8>> {
    if input == "lost" {
        let text = Text::from_str(alloc, "Lost")?;
        return Err(Error::IoError(Fault::Cancelled, text));
    }
    Ok(bytes_of(alloc, input)?)
}

/// The line on the bytes of a key, which are fetched if the cache lacks them: a word behind it says so.
fn got_or_put<S: Store>(
    env: &mut On<S>,
    cache: &str,
    key: &str,
    input: &str,
) -> Result<String, AllocError> {
    let alloc = env.alloc;
    let is_fetched = Cell::new(false);
    let bytes = cacache::get_or_put_sync(env, cache, key, || {
        is_fetched.set(true);
        fetched(alloc, input)
    });
    let line = read(alloc, bytes)?;
    if is_fetched.get() {
        return format!(in alloc; "{line}, fetched");
    }
    Ok(line)
}

/// The line on a call by key.
fn by_key<S: Store>(env: &mut On<S>, name: &str, words: &str, input: &str) -> Result<String, Flaw> {
    let alloc = env.alloc;
    let (cache, key) = cut(words);
    let line = match name {
        "read_sync" => read(alloc, cacache::read_sync(env, cache, key)),
        "get_or_put_sync" => got_or_put(env, cache, key, input),
        "find" => found(alloc, find(env, cache, key)),
        "metadata_sync" => found(alloc, cacache::metadata_sync(env, cache, key)),
        _ => return removed(env, name, words, input),
    };
    Ok(line?)
}

/// The line on an insertion with a copy of the options: its key, and options.
fn inserted<S: Store>(env: &mut On<S>, cache: &str, words: &str) -> Result<String, Flaw> {
    let alloc = env.alloc;
    let (key, words) = cut(words);
    let opts = options_of(alloc, words)?;
    let copy: Result<WriteOpts, AllocError> = opts.clone();
    let_go(opts);
    Ok(stored(alloc, insert(env, cache, key, copy?))?)
}

/// The line on a link by key: its key, and its target.
fn linked<S: Store>(env: &mut On<S>, cache: &str, words: &str) -> Result<String, AllocError> {
    let (key, target) = cut(words);
    stored(env.alloc, cacache::link_to_sync(env, cache, key, target))
}

/// The line on an insertion, or on a link.
fn added<S: Store>(env: &mut On<S>, name: &str, words: &str, input: &str) -> Result<String, Flaw> {
    let (cache, what) = cut(words);
    let line = match name {
        "insert" => return inserted(env, cache, what),
        "link_to_sync" => linked(env, cache, what),
        "link_to_hash_sync" => { stored(env.alloc, cacache::link_to_hash_sync(env, cache, what)) }
        _ => return by_key(env, name, words, input),
    };
    Ok(line?)
}

/// The line on a call of a whole cache.
fn on_cache<S: Store>(
    env: &mut On<S>,
    name: &str,
    words: &str,
    input: &str,
) -> Result<String, Flaw> {
    let alloc = env.alloc;
    let (cache, _) = cut(words);
    let line = match name {
        "clear_sync" => done(alloc, cacache::clear_sync(env, cache)),
        "ls" => listed(alloc, ls(env, cache)),
        "first" => first(alloc, ls(env, cache)),
        "list_sync" => listed(alloc, cacache::list_sync(env, cache)),
        "list" => contents(alloc, list(env, cache)),
        _ => return added(env, name, words, input),
    };
    Ok(line?)
}

/// The line on the call of the row; the row's words may have `\t` and the like.
pub(crate) fn called<S: Store>(env: &mut On<S>, row: Row<'_>) -> Result<String, Flaw> {
    let (name, words) = cut(row.act);
    let words = string_of(env.alloc, words)?;
    on_cache(env, name, words.as_str(), row.input)
}
