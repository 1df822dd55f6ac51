//! Contents that are removed one after another if they are old enough, with the folders that this leaves empty.
ghost use Rattle.std.specs.Prelude.{◌≡◌, IfOk, IfErr};
ghost use Rattle.cacache_keep.specs.Dropping.{Drops, DropsAll, StopsDropping, StopsUnlinking, Unlinks, tally_with};

use crate::emptying::{folders_of, remove_folders};
use crate::grace::{Fate, judge_age};
use crate::reading::says_gone;
use cacache_calls::answers::done_of;
use cacache_core::errors::Result;
use cacache_core::integrity::Integrity;
use cacache_core::text::Text;
use cacache_jobs::{content_path, refused};
use cacache_store::env::{Clock, Env, Names};
use cacache_store::store::{Stamps, Step, Store};
use std::alloc::{AllocError, Global};

/// How many contents had each fate; 2^64 - 1 if there are more.
#[derive(Clone, Copy)]
pub(crate) struct Tally {
    pub(crate) dropped: u64,
    pub(crate) young: u64,
    pub(crate) gone: u64,
}

/// The tally of one content more.
fn and_one(tally: Tally, fate: Fate) -> Tally
    ensures { result ≡ tally_with tally fate }
{
    let Tally {
        dropped,
        young,
        gone,
    } = tally;
    match fate {
        Fate::Dropped => Tally {
            dropped: dropped.saturating_add(1),
            young,
            gone,
        },
        Fate::Young => Tally {
            dropped,
            young: young.saturating_add(1),
            gone,
        },
        Fate::Gone => Tally {
            dropped,
            young,
            gone: gone.saturating_add(1),
        },
    }
}

/// The content wasn't removed.
fn left(alloc: Global, path: &Text) -> std::result::Result<Text, AllocError> {
    Ok(Text::new(format!(in alloc; "Failed to remove cache file {path}")?))
}

/// Removes the content at the path, and the folders above it that are empty then. One that isn't there is gone.
fn unlink<S: Store>(alloc: Global, store: &mut S, path: &Text) -> Result<Fate>
    ensures unlinks { IfOk result
        (λ fate. Unlinks path.now fate (S.log store.old) (S.log store.new)) }
    ensures stops { IfErr result
        (λ e. StopsUnlinking path.now e (S.log store.old) (S.log store.new)) }
{
    let folders = folders_of(alloc, path)?;
    let place = path.clone()?;
    match done_of(store.step(Step::RemoveFile(place))) {
        Ok(()) => {
            remove_folders(store, folders);
            Ok(Fate::Dropped)
        }
        Err(refusal) => {
            if says_gone(refusal) {
                return Ok(Fate::Gone);
            }
            Err(refused(refusal, left(alloc, path)))
        }
    }
}

/// Removes the content at the path if its file is old enough.
fn drop_old<S: Stamps>(
    alloc: Global,
    store: &mut S,
    limit: Option<u64>,
    path: &Text,
) -> Result<Fate>
    ensures drops { IfOk result
        (λ fate. Drops limit path.now fate (S.log store.old) (S.log store.new)) }
    ensures stops { IfErr result
        (λ e. StopsUnlinking path.now e (S.log store.old) (S.log store.new)) }
{
    match judge_age(store, limit, path) {
        Fate::Dropped => unlink(alloc, store, path),
        Fate::Young => Ok(Fate::Young),
        Fate::Gone => Ok(Fate::Gone),
    }
}

/// Removes the contents of these addresses whose files are old enough, and says how many had which fate.
pub(crate) fn drop_each<S: Stamps>(
    alloc: Global,
    store: &mut S,
    limit: Option<u64>,
    cache: &str,
    addresses: &[Integrity],
) -> Result<Tally>
    ensures drops { IfOk result (λ tally. DropsAll limit cache.now addresses.now tally
        (S.log store.old) (S.log store.new)) }
    ensures stops { IfErr result (λ e. StopsDropping limit cache.now addresses.now e
        (S.log store.old) (S.log store.new)) }
{
    let mut tally = Tally {
        dropped: 0,
        young: 0,
        gone: 0,
    };
    for sri in addresses {
        let path = content_path(alloc, cache, sri)?;
        let fate = drop_old(alloc, store, limit, &path)?;
        tally = and_one(tally, fate);
    }
    Ok(tally)
}
