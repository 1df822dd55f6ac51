//! Which entries of a bucket decide the lookups of its keys.
ghost use Rattle.std.specs.{Prelude.{◌≡◌, Some, None, List, ℕ, IfOk, OnOk, if◌then◌else◌, is_some, map}, Option.{option_or}};
ghost use Rattle.cacache_entry.specs.{Bucket.{answer_of, answer_to}, View.{entry_view}};
ghost use Rattle.cacache_walks.specs.Listing.{decider, entry_in};

use cacache_core::keeping::let_go;
use cacache_entry::{SerializableMetadata, answer_of_entry};
use std::alloc::{AllocError, Global};
use std::collections::BTreeMap;

/// The entry that decides the lookup of each key: the key's last entry that is a tombstone or has a readable integrity.
/// A key has none if the integrity of each of its entries is unreadable.
pub(crate) fn deciders<'a>(
    alloc: Global,
    entries: &'a [SerializableMetadata],
) -> Result<BTreeMap<&'a str, &'a SerializableMetadata>, AllocError>
    ensures { IfOk result (λ deciders. (key : List ℕ) →
        entry_in deciders key ≡ decider key (map entry_view entries.now)) }
{
    let mut deciders = BTreeMap::new(alloc);
    let mut rest = entries;
    while let Some((entry, earlier)) = rest.split_last() {
        note(alloc, &mut deciders, entry)?;
        rest = earlier;
    }
    Ok(deciders)
}

/// Whether an entry answers to a lookup of its key.
fn answers(alloc: Global, entry: &SerializableMetadata) -> Result<bool, AllocError>
    ensures { IfOk result (λ answers.
        answers ≡ is_some (answer_of (entry_view entry.now) (entry_view entry.now).integrity)) }
{
    let answer = answer_of_entry(alloc, entry)?;
    let answers = answer.is_some();
    let_go(answer);
    Ok(answers)
}

/// Notes an entry that answers to its key, unless a later one does.
fn note<'a>(
    alloc: Global,
    deciders: &mut BTreeMap<&'a str, &'a SerializableMetadata>,
    entry: &'a SerializableMetadata,
) -> Result<(), AllocError>
    ensures { OnOk result ((key : List ℕ) →
        entry_in deciders.new key ≡ option_or (entry_in deciders.old key)
        (if is_some (answer_to key (entry_view entry.now)) then Some (entry_view entry.now) else None)) }
{
    let key = entry.key.as_str();
    if !deciders.contains_key(key) && answers(alloc, entry)? {
        deciders.insert(key, entry)?;
    }
    Ok(())
}
