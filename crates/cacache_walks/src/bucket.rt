//! The items that a bucket lists: each of its keys once, if the key's lookup finds an entry.
ghost use Rattle.std.specs.{Prelude.{◌≡◌, ◌++◌, IfOk, IfErr, OnOk, Ok, false, map, option_map, bytes_eq, string_bytes}, List.{list_any}, Option.{option_to_list}};
ghost use Rattle.cacache_core.specs.declared.errors.Error.TheVariants.{OutOfMemory};
ghost use Rattle.cacache_entry.specs.{Bucket.{entries_of, latest as latest_of}, View.{entry_view, found_view}};
ghost use Rattle.cacache_calls.specs.{Runs.{plain_item}, Walking.{items_in, items_of}};
ghost use Rattle.cacache_walks.specs.Listing.{keys_in, added_at, own_answer, EndsWith};

use crate::deciding::deciders;
use cacache_calls::Found;
use cacache_core::errors::{self, Error};
use cacache_entry::{Metadata, SerializableMetadata, answer_of_entry, entries, latest};
use std::alloc::Global;

/// Up to this many entries are compared with each other. For more, a map is made.
const FEW: usize = 8;

/// Whether one of the entries has this key.
fn has_key(entries: &[SerializableMetadata], key: &str) -> bool
    ensures { result ≡ list_any (bytes_eq key.now) (keys_in entries.now) }
{
    let mut rest = entries;
    while let Some((entry, later)) = rest.split_first() {
        if key == entry.key.as_str() {
            return true;
        }
        rest = later;
    }
    false
}

/// What the lookup of a key finds, given the bucket's last entry with this key. The entry itself answers, as it was
/// read. Only if its integrity is unreadable, the bucket is searched again.
fn look_up(
    alloc: Global,
    bytes: &[u8],
    entry: &SerializableMetadata,
    later: &[SerializableMetadata],
) -> errors::Result<Option<Metadata>>
    requires ends { EndsWith (entries_of bytes.now) entry.now later.now }
    requires last { list_any (bytes_eq (string_bytes entry.now.key)) (keys_in later.now) ≡ false }
    ensures found { IfOk result (λ found. option_map found_view found
        ≡ latest_of (string_bytes entry.now.key) (entries_of bytes.now)) }
    ensures refused { IfErr result (λ e. e ≡ OutOfMemory) }
{
    match answer_of_entry(alloc, entry)? {
        Some(found) => Ok(found),
        None => {
            let answer = latest(alloc, bytes, entry.key.as_str())?;
            Ok(answer.found)
        }
    }
}

/// Adds what the lookup of an entry's key finds, unless a later entry has the same key.
fn add(
    alloc: Global,
    items: &mut Vec<Result<Found, Error>>,
    bytes: &[u8],
    entry: &SerializableMetadata,
    later: &[SerializableMetadata],
) -> errors::Result<()>
    requires ends { EndsWith (entries_of bytes.now) entry.now later.now }
    ensures items { OnOk result (map plain_item items.new.items ≡ map plain_item items.old.items
        ++ added_at (entries_of bytes.now) (string_bytes entry.now.key) (keys_in later.now)) }
    ensures refused { IfErr result (λ e. e ≡ OutOfMemory) }
{
    if has_key(later, entry.key.as_str()) {
        return Ok(());
    }
    if let Some(found) = look_up(alloc, bytes, entry, later)? {
        items.push(Ok(Found::new(found)))?;
    }
    Ok(())
}

/// The items of a bucket's bytes, if its entries are few enough to compare each key with the later ones.
fn items_of_few(
    alloc: Global,
    bytes: &[u8],
    entries: &[SerializableMetadata],
) -> errors::Result<Vec<Result<Found, Error>>>
    requires { map entry_view entries.now ≡ entries_of bytes.now }
    ensures items { IfOk result (λ items. map plain_item items.items ≡ items_in bytes.now) }
    ensures refused { IfErr result (λ e. e ≡ OutOfMemory) }
{
    let mut items = Vec::new(alloc);
    let mut rest = entries;
    while let Some((entry, later)) = rest.split_first() {
        add(alloc, &mut items, bytes, entry, later)?;
        rest = later;
    }
    Ok(items)
}

/// Adds what an entry answers to a lookup of its key, if it answers anything.
fn push(
    alloc: Global,
    items: &mut Vec<Result<Found, Error>>,
    entry: &SerializableMetadata,
) -> errors::Result<()>
    ensures items { OnOk result (map plain_item items.new.items ≡ map plain_item items.old.items
        ++ option_to_list (option_map Ok (own_answer (entry_view entry.now)))) }
    ensures refused { IfErr result (λ e. e ≡ OutOfMemory) }
{
    if let Some(found) = answer_of_entry(alloc, entry)?.flatten() {
        items.push(Ok(Found::new(found)))?;
    }
    Ok(())
}

/// The items of any number of entries, from the last to the first. Once a key was met, it has no deciding entry left.
fn items_of_many(
    alloc: Global,
    entries: &[SerializableMetadata],
) -> errors::Result<Vec<Result<Found, Error>>>
    ensures items { IfOk result (λ items.
        map plain_item items.items ≡ items_of (map entry_view entries.now)) }
    ensures refused { IfErr result (λ e. e ≡ OutOfMemory) }
{
    let mut deciders = deciders(alloc, entries)?;
    let mut items = Vec::new(alloc);
    let mut rest = entries;
    while let Some((entry, earlier)) = rest.split_last() {
        if let Some(decider) = deciders.remove(entry.key.as_str()) {
            push(alloc, &mut items, decider)?;
        }
        rest = earlier;
    }
    items.reverse();
    Ok(items)
}

/// The items of a bucket's bytes. Each line is read and hashed once, except that in a bucket of few entries an
/// unreadable integrity can cause another search.
pub(crate) fn items(alloc: Global, bytes: &[u8]) -> errors::Result<Vec<Result<Found, Error>>>
    ensures items { IfOk result (λ items. map plain_item items.items ≡ items_in bytes.now) }
    ensures refused { IfErr result (λ e. e ≡ OutOfMemory) }
{
    let entries = entries(alloc, bytes)?;
    if entries.len() <= FEW {
        items_of_few(alloc, bytes, entries.as_slice())
    } else {
        items_of_many(alloc, entries.as_slice())
    }
}
