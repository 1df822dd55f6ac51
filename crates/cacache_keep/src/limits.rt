//! What a cache may hold, and which entries are dropped so that the others keep within that.
ghost use Rattle.std.specs.{Prelude.{◌≡◌, ◌≤◌, ◌+◌, ◌-◌, ◌↔◌, ◌^◌, ℕ, drop, IfOk, IsTrue, length, map, min, option_map}, List.Sorted.{IsPermutation, IsSorted}};
ghost use Rattle.cacache_entry.specs.View.{found_view};
ghost use Rattle.cacache_keep.specs.Limits.{Chooses, IsSince, IsWithin, Keeps, age_cmp, bytes_in, entries_in, weight_of};

use crate::weighing::Weighed;
use cacache_entry::Metadata;
use std::alloc::{AllocError, Global};
use std::cmp::Ordering;

/// What a cache may hold after it is pruned: the newest entries, as many as it can be. An entry is dropped if it is too
/// old, or if it and all newer ones have too many bytes, and then so are all older ones. Without limits all are kept.
#[derive(Clone, Copy, Debug, Default)]
pub struct Limits {
    /// How many bytes the contents of its entries may have together on the disk. A content that several have counts
    /// once, and an empty one keeps within any limit.
    pub bytes: Option<u64>,
    /// The moment of the oldest entry that it may have, in milliseconds since 1970.
    pub since: Option<u128>,
}

/// Entries that are dropped, those that are kept, and the bytes of all and of these. Each is in order, the oldest first;
/// of two of the same moment the one with the lesser key counts as older.
#[derive(Drop)]
pub(crate) struct Choice {
    pub(crate) dropped: Vec<Metadata>,
    pub(crate) kept: Vec<Metadata>,
    pub(crate) bytes_before: u64,
    pub(crate) bytes_after: u64,
}

/// How the ages of two entries compare.
fn by_age(a: &Metadata, b: &Metadata) -> Ordering
    ensures { result ≡ age_cmp (found_view a.now) (found_view b.now) }
{
    let times = a.time.cmp(&b.time);
    times.then(a.key.as_bytes().cmp(b.key.as_bytes()))
}

/// Puts entries in order, the oldest first.
pub(crate) fn sort(entries: &mut Vec<Metadata>)
    ensures same { IsPermutation
        (map found_view entries.old.items) (map found_view entries.new.items) }
    ensures order { IsSorted age_cmp (map found_view entries.new.items) }
{
    entries.sort_unstable_by(by_age);
}

/// Whether the entry isn't older than the moment.
fn is_since(since: Option<u128>, weighed: &Weighed) -> bool
    ensures { IsTrue result ↔ IsSince since (weight_of weighed.now) }
{
    match since {
        Some(moment) => moment <= weighed.entry.time,
        None => true,
    }
}

/// Whether there is room for so many bytes.
fn has_room(room: Option<u64>, size: u64) -> bool
    ensures { IsTrue result ↔ IsWithin room size }
{
    match room {
        Some(left) => size <= left,
        None => true,
    }
}

/// The room that so many bytes leave.
fn room_beside(room: Option<u64>, size: u64) -> Option<u64>
    requires { IsWithin room size }
    ensures { result ≡ option_map (λ left. left - size) room }
{
    match room {
        Some(left) => Some(left - size),
        None => None,
    }
}

/// From which one on the entries, the oldest first, keep within the limits.
fn first_kept(weighed: &[Weighed], limits: Limits) -> usize
    ensures bound { result ≤ length weighed.now }
    ensures within { Keeps limits (map weight_of (drop result weighed.now)) }
    ensures needed { (n : ℕ) → result ≡ n + 1
        → Keeps limits (map weight_of (drop n weighed.now)) → ⊥ }
{
    let mut first = weighed.len();
    let mut room = limits.bytes;
    while first > 0 {
        let next = &weighed[first - 1];
        if !is_since(limits.since, next) || !has_room(room, next.bytes) {
            return first;
        }
        room = room_beside(room, next.bytes);
        first -= 1;
    }
    first
}

/// How many bytes these entries add to newer ones; 2^64 - 1 if there are more.
fn bytes_of(weighed: &[Weighed]) -> u64
    ensures { result ≡ min (bytes_in (map weight_of weighed.now)) (2 ^ 64 - 1) }
{
    let mut bytes = 0u64;
    for one in weighed {
        bytes = bytes.saturating_add(one.bytes);
    }
    bytes
}

/// The entries alone.
fn entries_of(alloc: Global, weighed: Vec<Weighed>) -> Result<Vec<Metadata>, AllocError>
    ensures { IfOk result
        (λ all. map found_view all.items ≡ entries_in (map weight_of weighed.items)) }
{
    let mut all = Vec::new(alloc);
    for one in weighed {
        let Weighed { entry, bytes: _ } = one;
        all.push(entry)?;
    }
    Ok(all)
}

/// Chooses the entries that are dropped so that the others keep within the limits. The oldest comes first.
pub(crate) fn choose(
    alloc: Global,
    limits: Limits,
    weighed: Vec<Weighed>,
) -> Result<Choice, AllocError>
    ensures chooses { IfOk result (λ c. Chooses limits (map weight_of weighed.items) c) }
{
    let mut weighed = weighed;
    let bytes_before = bytes_of(weighed.as_slice());
    let first = first_kept(weighed.as_slice(), limits);
    let kept = weighed.split_off(first)?;
    let bytes_after = bytes_of(kept.as_slice());
    let dropped = entries_of(alloc, weighed)?;
    let kept = entries_of(alloc, kept)?;
    Ok(Choice {
        dropped,
        kept,
        bytes_before,
        bytes_after,
    })
}
