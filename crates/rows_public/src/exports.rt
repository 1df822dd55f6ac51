//! Exports: a call's name, the cache, the key or the integrity's text, and the path that the content gets; `export_sync` and
//! `export_hash_sync` have their mode before the path. Each function knows some of the names and hands on the others.
use crate::lines::{copied, done, sent};
use cacache::content::read;
use cacache::store::Store;
use cacache::{ExportMode, Integrity};
use row_places::On;
use rows::Flaw;
use rows::parts::integrity_of;
use rows::words::cut;

/// An export: its name, the cache, the key or the integrity, and the path, perhaps after a mode.
#[derive(Clone, Copy)]
pub(crate) struct Export<'a> {
    pub(crate) name: &'a str,
    pub(crate) cache: &'a str,
    pub(crate) what: &'a str,
    pub(crate) to: &'a str,
}

/// The export that an act is.
pub(crate) fn export_of(act: &str) -> Export<'_> {
    let (name, words) = cut(act);
    let (cache, words) = cut(words);
    let (what, to) = cut(words);
    Export {
        name,
        cache,
        what,
        to,
    }
}

/// The line on a link to a content of the module `content::read`.
fn linked_content<S: Store>(
    env: &mut On<S>,
    it: Export<'_>,
    sri: &Integrity,
) -> Result<String, Flaw> {
    let Export { cache, to, .. } = it;
    let answer = match it.name {
        "reflink" => read::reflink(env, cache, sri, to),
        "reflink_unchecked" => read::reflink_unchecked(env, cache, sri, to),
        "hard_link" => read::hard_link(env, cache, sri, to),
        "hard_link_unchecked" => read::hard_link_unchecked(env, cache, sri, to),
        _ => return Err(Flaw::NotRead),
    };
    Ok(done(env.alloc, answer)?)
}

/// The line on an export of the module `content::read`.
fn of_content<S: Store>(env: &mut On<S>, it: Export<'_>, sri: &Integrity) -> Result<String, Flaw> {
    let Export { cache, to, .. } = it;
    let answer = match it.name {
        "copy" | "copy_async" => read::copy(env, cache, sri, to),
        "copy_unchecked" => read::copy_unchecked(env, cache, sri, to),
        _ => return linked_content(env, it, sri),
    };
    Ok(copied(env.alloc, answer)?)
}

/// The line on a link to a content by integrity.
fn linked_by_hash<S: Store>(
    env: &mut On<S>,
    it: Export<'_>,
    sri: &Integrity,
) -> Result<String, Flaw> {
    let Export { cache, to, .. } = it;
    let answer = match it.name {
        "reflink_hash_sync" => cacache::reflink_hash_sync(env, cache, sri, to),
        "reflink_hash_unchecked_sync" => {
            cacache::reflink_hash_unchecked_sync(env, cache, sri, to)
        },
        "hard_link_hash_sync" => cacache::hard_link_hash_sync(env, cache, sri, to),
        "hard_link_hash_unchecked_sync" => {
            cacache::hard_link_hash_unchecked_sync(env, cache, sri, to)
        },
        _ => return of_content(env, it, sri),
    };
    Ok(done(env.alloc, answer)?)
}

/// The line on an export by integrity.
fn by_hash<S: Store>(env: &mut On<S>, it: Export<'_>) -> Result<String, Flaw> {
    let Export { cache, to, .. } = it;
    let sri = integrity_of(env.alloc, it.what)?;
    let answer = match it.name {
        "copy_hash_sync" => cacache::copy_hash_sync(env, cache, &sri, to),
        "copy_hash_unchecked_sync" => cacache::copy_hash_unchecked_sync(env, cache, &sri, to),
        _ => return linked_by_hash(env, it, &sri),
    };
    Ok(copied(env.alloc, answer)?)
}

/// The line on a link to a content by key.
fn linked_by_key<S: Store>(env: &mut On<S>, it: Export<'_>) -> Result<String, Flaw> {
    let (cache, what, to) = (it.cache, it.what, it.to);
    let answer = match it.name {
        "reflink_sync" => cacache::reflink_sync(env, cache, what, to),
        "reflink_unchecked_sync" => cacache::reflink_unchecked_sync(env, cache, what, to),
        "hard_link_sync" => cacache::hard_link_sync(env, cache, what, to),
        "hard_link_unchecked_sync" => cacache::hard_link_unchecked_sync(env, cache, what, to),
        _ => return by_hash(env, it),
    };
    Ok(done(env.alloc, answer)?)
}

/// The mode that a word names.
pub(crate) fn mode_of(word: &str) -> Result<ExportMode, Flaw> {
    match word {
        "shared" => Ok(ExportMode::Shared),
        "own" => Ok(ExportMode::Own),
        _ => Err(Flaw::NotRead),
    }
}

/// The line on an export that goes the cheapest way, which is given a mode and a path.
fn sent_cheapest<S: Store>(env: &mut On<S>, it: Export<'_>) -> Result<String, Flaw> {
    let Export { cache, what, .. } = it;
    let (mode, to) = cut(it.to);
    let answer = match it.name {
        "export_sync" => cacache::export_sync(env, cache, what, to, mode_of(mode)?),
        "export_hash_sync" => {
            let sri = integrity_of(env.alloc, what)?;
            cacache::export_hash_sync(env, cache, &sri, to, mode_of(mode)?)
        }
        _ => return linked_by_key(env, it),
    };
    Ok(sent(env.alloc, answer)?)
}

/// The line on an export.
pub(crate) fn exported<S: Store>(env: &mut On<S>, act: &str) -> Result<String, Flaw> {
    let it = export_of(act);
    let (cache, what, to) = (it.cache, it.what, it.to);
    let answer = match it.name {
        "copy_sync" => cacache::copy_sync(env, cache, what, to),
        "copy_unchecked_sync" => cacache::copy_unchecked_sync(env, cache, what, to),
        _ => return sent_cheapest(env, it),
    };
    Ok(copied(env.alloc, answer)?)
}
