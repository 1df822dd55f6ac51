//! A walk through the index, which reads each bucket once, and notes those with odd lines.
ghost use Rattle.std.specs.{Prelude.{◌≡◌, ◌++◌, IfOk, IfErr, OnOk, map}, Option.{option_to_list}};
ghost use Rattle.cacache_core.specs.declared.errors.Error.TheVariants.{OutOfMemory};
ghost use Rattle.cacache_store.specs.Plain.{plain_answer};
ghost use Rattle.cacache_calls.specs.{Runs.{plain_item}, Walking.{visit_step}};
ghost use Rattle.cacache_keep.specs.{Checking.{bucket_read, odd_bucket}, Walking.{IsTold, LosesIndex, MeetsIndex, VisitGoes, VisitStops, entry_at}};

use crate::odd::has_odd_beside;
use cacache_calls::{Found, Visit};
use cacache_core::bytes::Bytes;
use cacache_core::errors::{Error, Result};
use cacache_core::paths::{INDEX_AREA, join};
use cacache_core::text::Text;
use cacache_store::store::{Answer, FileHandle, Store, TempHandle};
use cacache_walks::Walk;
use std::alloc::{AllocError, Global};
use std::mem::swap;

/// The items of a listing, and the paths of the buckets with odd lines, in the order of their reading.
#[derive(Drop)]
pub(crate) struct Met {
    pub(crate) items: Vec<std::result::Result<Found, Error>>,
    pub(crate) odd: Vec<Text>,
}

/// The path and the bytes of the bucket that a visit read. No byte is copied.
fn bucket_of<F: FileHandle, T: TempHandle>(
    visit: &Visit,
    answer: &Answer<F, T>,
) -> std::result::Result<Option<(Text, Bytes)>, AllocError>
    ensures { IfOk result (λ bucket. bucket
        ≡ bucket_read (visit_step visit.now) (plain_answer F.seen T.seen answer.now)) }
{
    if let Visit::ReadBucket(path) = visit {
        if let Answer::Bytes(bytes) = answer {
            return Ok(Some((path.clone()?, bytes.share()?)));
        }
    }
    Ok(None)
}

/// Whether an entry is at the place among the items.
fn is_entry_at(items: &[std::result::Result<Found, Error>], at: usize) -> bool
    ensures { result ≡ entry_at (map plain_item items.now) at }
{
    match items.get(at) {
        Some(Ok(_)) => true,
        _ => false,
    }
}

/// Notes the bucket if it has an odd line. The flag says whether the bucket lists an entry.
fn note(
    alloc: Global,
    odd: &mut Vec<Text>,
    bucket: Option<(Text, Bytes)>,
    lists: bool,
) -> Result<()>
    ensures notes { OnOk result (IsTold lists bucket
        → odd.new.items ≡ odd.old.items ++ option_to_list (odd_bucket bucket)) }
    ensures memory { IfErr result (λ e. e ≡ OutOfMemory) }
{
    if let Some((path, bytes)) = bucket {
        if has_odd_beside(alloc, bytes.as_slice(), lists)? {
            odd.push(path)?;
        }
    }
    Ok(())
}

/// Makes a visit of the walk, and goes on to the next one.
fn make<S: Store>(
    alloc: Global,
    store: &mut S,
    walk: &mut Walk,
    odd: &mut Vec<Text>,
    visit: Visit,
) -> Result<Option<Visit>>
    ensures goes { IfOk result (λ next. VisitGoes visit walk.old odd.old.items
        next walk.new odd.new.items (S.log store.old) (S.log store.new)) }
    ensures stops { IfErr result (λ e. VisitStops visit walk.old odd.old.items e
        (S.log store.old) (S.log store.new)) }
{
    let step = visit.step()?;
    let answer = store.step(step);
    let bucket = bucket_of(&visit, &answer)?;
    let before = walk.items.len();
    let next = walk.resume(alloc, visit, answer)?;
    let lists = is_entry_at(walk.items.as_slice(), before);
    note(alloc, odd, bucket, lists)?;
    Ok(next)
}

/// Lists the index of a cache.
pub(crate) fn walk_index<S: Store>(alloc: Global, store: &mut S, cache: &str) -> Result<Met>
    ensures meets { IfOk result (λ met. MeetsIndex cache.now (map plain_item met.items.items)
        met.odd.items (S.log store.old) (S.log store.new)) }
    ensures stops { IfErr result
        (λ e. LosesIndex cache.now e (S.log store.old) (S.log store.new)) }
{
    let (mut walk, visit) = Walk::new(alloc, false, join(alloc, cache, INDEX_AREA)?)?;
    let mut odd = Vec::new(alloc);
    let mut next = Some(visit);
    'visits: while let Some(visit) = next {
        next = make(alloc, store, &mut walk, &mut odd, visit)?;
    }
    let mut items = Vec::new(alloc);
    swap(&mut items, &mut walk.items);
    Ok(Met { items, odd })
}
