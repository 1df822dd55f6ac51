//! Links to a target that is read in pieces: how the linker is opened, the cache, the key, the target, how many bytes
//! are read before the commit, and options.
use crate::lines::pair;
use crate::options::options_of;
use crate::readers::first_of;
use cacache::content::linkto::ToLinker;
use cacache::store::Store;
use cacache::{Result as Answered, SyncToLinker};
use cacache_core::keeping::let_go;
use row_places::On;
use rows::Flaw;
use rows::answers::{refused, stored};
use rows::parts::algorithm_of;
use rows::words::{cut, number_of};
use std::alloc::AllocError;

/// A cache, a key and a target. The key is an algorithm's name if the linker has none.
#[derive(Clone, Copy)]
struct Link<'a> {
    cache: &'a str,
    key: &'a str,
    target: &'a str,
}

/// A cache, a key and a target, and the words after them.
fn link_of(words: &str) -> (Link<'_>, &str) {
    let (cache, words) = cut(words);
    let (key, words) = cut(words);
    let (target, words) = cut(words);
    (Link { cache, key, target }, words)
}

/// A linker that is opened with options, if the word says so.
fn opened_with<S: Store>(
    env: &mut On<S>,
    way: &str,
    link: Link<'_>,
    options: &str,
) -> Result<Answered<SyncToLinker<S::File>>, Flaw> {
    let Link { cache, key, target } = link;
    let opts = options_of(env.alloc, options)?;
    match way {
        "options" => Ok(opts.link_to_sync(env, cache, key, target)),
        "options_hash" => Ok(opts.link_to_hash_sync(env, cache, target)),
        _ => {
            let_go(opts);
            Err(Flaw::NotRead)
        }
    }
}

/// A linker that is opened in one of the ways, if the word is one.
fn opened<S: Store>(
    env: &mut On<S>,
    way: &str,
    link: Link<'_>,
    options: &str,
) -> Result<Answered<SyncToLinker<S::File>>, Flaw> {
    let Link { cache, key, target } = link;
    match way {
        "open" => Ok(SyncToLinker::open(env, cache, key, target)),
        "open_hash" => Ok(SyncToLinker::open_hash(env, cache, target)),
        "new" => Ok(ToLinker::new(env, cache, algorithm_of(key)?, target)),
        _ => opened_with(env, way, link, options),
    }
}

/// The line on a linker after a read of so many bytes, and on its commit, except after `drop`; or why it wasn't
/// opened.
fn committed<S: Store>(
    env: &mut On<S>,
    opened: Answered<SyncToLinker<S::File>>,
    count: usize,
    then: &str,
) -> Result<String, AllocError> {
    let alloc = env.alloc;
    let mut linker = match opened {
        Ok(linker) => linker,
        Err(error) => return refused(alloc, error),
    };
    let first = first_of(alloc, &mut linker, count);
    if then == "drop" {
        let_go(linker);
        return first;
    }
    let line = stored(alloc, linker.commit(env));
    pair(alloc, first, line)
}

/// The line on a linker.
pub(crate) fn linked<S: Store>(env: &mut On<S>, words: &str) -> Result<String, Flaw> {
    let (way, words) = cut(words);
    let (link, words) = link_of(words);
    let (count, options) = cut(words);
    let count = number_of(count)?;
    let opened = opened(env, way, link, options)?;
    Ok(committed(env, opened, count, options)?)
}
