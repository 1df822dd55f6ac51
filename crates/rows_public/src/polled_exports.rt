//! Exports as futures, each under the name of the call that it makes.
use crate::awaited::awaited;
use crate::exports::{Export, export_of, mode_of};
use crate::lines::{copied, done, sent};
use crate::polled::Told;
use cacache::content::read::copy_async;
use cacache::store::Store;
use row_places::On;
use rows::parts::integrity_of;
use rows::words::cut;
use std::alloc::AllocGlobal;
use std::random::RandomSource;
use std::sync::Wait;

/// The line on an export by integrity.
fn by_hash<R: Wait + RandomSource + AllocGlobal, S: Store>(
    rt: &R,
    env: &mut On<S>,
    it: Export<'_>,
) -> Told {
    let Export { cache, to, .. } = it;
    let alloc = env.alloc;
    let sri = &integrity_of(alloc, it.what)?;
    let line = match it.name {
        "copy_hash_sync" | "copy" => {
            copied(alloc, awaited(rt, cacache::copy_hash(env, cache, sri, to))?)
        }
        "copy_async" => copied(alloc, awaited(rt, copy_async(env, cache, sri, to))?),
        "copy_hash_unchecked_sync" | "copy_unchecked" => {
            copied(
                alloc,
                awaited(rt, cacache::copy_hash_unchecked(env, cache, sri, to))?,
            )
        }
        "reflink_hash_sync" | "reflink" => {
            done(
                alloc,
                awaited(rt, cacache::reflink_hash(env, cache, sri, to))?,
            )
        }
        "hard_link_hash_sync" | "hard_link" => {
            done(
                alloc,
                awaited(rt, cacache::hard_link_hash(env, cache, sri, to))?,
            )
        }
        _ => return Ok(None),
    };
    Ok(Some(line?))
}

/// The line on a link to a content by key.
fn linked<R: Wait + RandomSource + AllocGlobal, S: Store>(
    rt: &R,
    env: &mut On<S>,
    it: Export<'_>,
) -> Told {
    let (cache, what, to) = (it.cache, it.what, it.to);
    let answer = match it.name {
        "reflink_sync" => awaited(rt, cacache::reflink(env, cache, what, to))?,
        "reflink_unchecked_sync" => awaited(rt, cacache::reflink_unchecked(env, cache, what, to))?,
        "hard_link_sync" => awaited(rt, cacache::hard_link(env, cache, what, to))?,
        "hard_link_unchecked_sync" => return Ok(None),
        _ => return by_hash(rt, env, it),
    };
    Ok(Some(done(env.alloc, answer)?))
}

/// The line on an export that goes the cheapest way, which is given a mode and a path.
fn sent_cheapest<R: Wait + RandomSource + AllocGlobal, S: Store>(
    rt: &R,
    env: &mut On<S>,
    it: Export<'_>,
) -> Told {
    let Export { cache, what, .. } = it;
    let (mode, to) = cut(it.to);
    let answer = match it.name {
        "export_sync" => awaited(rt, cacache::export(env, cache, what, to, mode_of(mode)?))?,
        "export_hash_sync" => {
            let sri = integrity_of(env.alloc, what)?;
            awaited(
                rt,
                cacache::export_hash(env, cache, &sri, to, mode_of(mode)?),
            )?
        }
        _ => return linked(rt, env, it),
    };
    Ok(Some(sent(env.alloc, answer)?))
}

/// The line on an export.
pub(crate) fn exported<R: Wait + RandomSource + AllocGlobal, S: Store>(
    rt: &R,
    env: &mut On<S>,
    act: &str,
) -> Told {
    let it = export_of(act);
    let (cache, what, to) = (it.cache, it.what, it.to);
    let answer = match it.name {
        "copy_sync" => awaited(rt, cacache::copy(env, cache, what, to))?,
        "copy_unchecked_sync" => awaited(rt, cacache::copy_unchecked(env, cache, what, to))?,
        _ => return sent_cheapest(rt, env, it),
    };
    Ok(Some(copied(env.alloc, answer)?))
}
